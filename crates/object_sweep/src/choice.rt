//! What a narrow sweep tries to place next. Whatever it tries does no harm, so nothing is promised here.

use crate::at_hand::{Alike, AtHand};
use crate::configuration::Configuration;
use crate::ending::{is_idle, is_stood_for, is_sure_and_pure};
use crate::places::{is_in, mark_of};
use object_core::{Object, Operation};
use std::alloc::{AllocError, Global};

/// How many pure operations that are placed count at most.
const MOST_PURE: usize = 1024;

/// Whether the operation at a place leaves every state as it is.
fn is_pure_at<O: Object>(log: &[Operation<O::What>], place: usize) -> bool {
    match log.get(place) {
        Some(op) => O::is_pure(op.what),
        None => false,
    }
}

/// Whether an operation is placed. Of most that aren't the marks tell.
fn is_placed<O>(from: &Configuration<O>, place: usize) -> bool {
    from.marks & mark_of(place) != 0 && is_in(place, from.placed.as_slice())
}

/// The state after the operation at a place, if it can be made.
fn state_after<O: Object>(log: &[Operation<O::What>], state: O, place: usize) -> Option<O> {
    match log.get(place) {
        Some(op) => state.step(op.what),
        None => None,
    }
}

/// Whether an operation isn't placed, and can be.
fn is_open<O: Object>(log: &[Operation<O::What>], from: &Configuration<O>, place: usize) -> bool {
    state_after(log, from.state, place).is_some() && !is_placed(from, place)
}

/// Whether an operation isn't placed, and can't be yet.
fn is_stuck<O: Object>(log: &[Operation<O::What>], from: &Configuration<O>, place: usize) -> bool {
    state_after(log, from.state, place).is_none() && !is_placed(from, place)
}

/// Those of these that can't be placed yet.
fn stuck_in<O: Object>(
    alloc: Global,
    log: &[Operation<O::What>],
    with_end: &[usize],
    from: &Configuration<O>,
) -> Result<Vec<usize>, AllocError> {
    with_end
        .iter()
        .copied()
        .filter(|place| is_stuck(log, from, *place))
        .collect(alloc)
}

/// Whether an operation lets one of these be placed. None of them is placed.
fn is_wanted<O: Object>(
    log: &[Operation<O::What>],
    stuck: &[usize],
    state: O,
    place: usize,
) -> bool {
    match state_after(log, state, place) {
        Some(next) => stuck
            .iter()
            .any(|other| state_after(log, next, *other).is_some()),
        None => false,
    }
}

/// Whether an operation need not be tried beside these.
fn is_needless<O: Object>(log: &[Operation<O::What>], chosen: &[usize], place: usize) -> bool {
    is_idle::<O>(log, place) || is_stood_for::<O>(log, chosen, place)
}

/// Of those that never ended and do the same the one that is tried, if another operation waits for it.
fn wanted_of<O: Object>(
    log: &[Operation<O::What>],
    stuck: &[usize],
    chosen: &[usize],
    from: &Configuration<O>,
    alike: &Alike,
) -> Option<usize> {
    let place = alike.first_open(from.placed.as_slice())?;
    if is_wanted(log, stuck, from.state, place) && !is_needless::<O>(log, chosen, place) {
        Some(place)
    } else {
        None
    }
}

/// Chooses what is tried of those that never ended: where something can't be placed yet, one of each that do the same.
fn choose_unfinished<O: Object>(
    alloc: Global,
    log: &[Operation<O::What>],
    at_hand: &AtHand,
    from: &Configuration<O>,
    chosen: &mut Vec<usize>,
) -> Result<(), AllocError> {
    let stuck = stuck_in(alloc, log, at_hand.with_end.as_slice(), from)?;
    if stuck.is_empty() {
        return Ok(());
    }
    for alike in at_hand.unfinished.as_slice() {
        if let Some(place) = wanted_of(log, stuck.as_slice(), chosen.as_slice(), from, alike) {
            chosen.push(place)?;
        }
    }
    Ok(())
}

/// The operations that are tried. Of those that have an end and do the same it is the one that ends first; those that
/// never ended are tried only where they let another one be placed that can't be yet, and not where they are spared.
pub(crate) fn chosen_from<O: Object>(
    alloc: Global,
    log: &[Operation<O::What>],
    at_hand: &AtHand,
    sparing: bool,
    from: &Configuration<O>,
) -> Result<Vec<usize>, AllocError> {
    let mut chosen = Vec::new(alloc);
    for place in at_hand.with_end.as_slice() {
        if is_open(log, from, *place) && !is_needless::<O>(log, chosen.as_slice(), *place) {
            chosen.push(*place)?;
        }
    }
    if !sparing {
        choose_unfinished(alloc, log, at_hand, from, &mut chosen)?;
    }
    Ok(chosen)
}

/// The first of these that is sure and pure and can be placed.
pub(crate) fn pure_one<O: Object>(
    log: &[Operation<O::What>],
    with_end: &[usize],
    from: &Configuration<O>,
) -> Option<usize> {
    with_end.iter().copied().find(|place| is_sure_and_pure::<O>(log, *place)
        && is_open(log, from, *place))
}

/// Those of these that leave every state as it is.
fn pure_among<O: Object>(log: &[Operation<O::What>], places: &[usize]) -> usize {
    places
        .iter()
        .filter(|place| is_pure_at::<O>(log, **place))
        .count()
}

/// Lower for a configuration that can do more: each operation that it has placed counts one more, but one that leaves
/// every state as it is one less, as that one waits no longer.
pub(crate) fn rank_of<O: Object>(log: &[Operation<O::What>], one: &Configuration<O>) -> usize {
    let placed = one.placed.as_slice();
    let pure = pure_among::<O>(log, placed);
    MOST_PURE
        .saturating_add(placed.len())
        .saturating_sub(pure.saturating_mul(2))
}
