//! The end of an operation in a narrow sweep, which holds few configurations.

ghost use Rattle.std.specs.Prelude.{false, IfOk, OnOk};
ghost use Rattle.std.specs.List.Sorted.{IsPermutation};
ghost use Rattle.object_sweep.specs.inner.Steps.{AddsReached, IsNarrowed, IsPassed, KeepsSound};

use crate::at_hand::AtHand;
use crate::choice::{chosen_from, pure_one, rank_of};
use crate::configuration::Configuration;
use crate::ending::{Ending, close, copied, fewest_placed_first, leave_out, start, try_place};
use crate::places::is_in;
use object_core::{Object, Operation};
use std::alloc::{AllocError, Global};

/// How many configurations are held at first.
pub(crate) const NARROW: usize = 32;
/// How many are explored at most for each that is kept.
const EXPLORED: usize = 8;

/// What is kept behind the end of an operation.
#[derive(Drop)]
pub(crate) struct Passed<O> {
    pub kept: Vec<Configuration<O>>,
    /// Whether none was left out.
    pub whole: bool,
}

/// Places one more operation, if it is under way and can be placed.
fn try_under_way<O: Object>(
    alloc: Global,
    log: &[Operation<O::What>],
    under_way: &[usize],
    ending: usize,
    from: &Configuration<O>,
    place: usize,
    sets: &mut Ending<O>,
) -> Result<(), AllocError>
    ensures { OnOk result (AddsReached O.after log.now under_way.now ending from.now.state from.now.placed.items
        sets.old.waiting.items sets.old.kept.items sets.new.waiting.items sets.new.kept.items) }
{
    if !is_in(place, under_way) {
        return Ok(());
    }
    try_place(alloc, log, ending, from, place, sets)
}

/// What a configuration leads to by the operations that are tried.
fn explore_wanted<O: Object>(
    alloc: Global,
    log: &[Operation<O::What>],
    under_way: &[usize],
    at_hand: &AtHand,
    sparing: bool,
    ending: usize,
    from: &Configuration<O>,
    sets: &mut Ending<O>,
) -> Result<(), AllocError>
    ensures { OnOk result (AddsReached O.after log.now under_way.now ending from.now.state from.now.placed.items
        sets.old.waiting.items sets.old.kept.items sets.new.waiting.items sets.new.kept.items) }
{
    leave_out(alloc, log, ending, from, sets)?;
    let chosen = chosen_from(alloc, log, at_hand, sparing, from)?;
    for place in chosen.as_slice() {
        try_under_way(alloc, log, under_way, ending, from, *place, sets)?;
    }
    Ok(())
}

/// What a configuration leads to: by a pure operation alone, if one can be placed.
fn visit_wanted<O: Object>(
    alloc: Global,
    log: &[Operation<O::What>],
    under_way: &[usize],
    at_hand: &AtHand,
    sparing: bool,
    ending: usize,
    from: &Configuration<O>,
    sets: &mut Ending<O>,
) -> Result<(), AllocError>
    ensures { OnOk result (AddsReached O.after log.now under_way.now ending from.now.state from.now.placed.items
        sets.old.waiting.items sets.old.kept.items sets.new.waiting.items sets.new.kept.items) }
{
    match pure_one(log, at_hand.with_end.as_slice(), from) {
        Some(place) => try_under_way(alloc, log, under_way, ending, from, place, sets),
        None => explore_wanted(alloc, log, under_way, at_hand, sparing, ending, from, sets),
    }
}

/// Explores what waits, and no more than this many.
fn close_wanted<O: Object>(
    alloc: Global,
    log: &[Operation<O::What>],
    under_way: &[usize],
    at_hand: &AtHand,
    sparing: bool,
    ending: usize,
    most: usize,
    sets: &mut Ending<O>,
) -> Result<(), AllocError>
    ensures { OnOk result (KeepsSound O.after log.now under_way.now ending sets.old.waiting.items sets.old.kept.items
        sets.new.waiting.items sets.new.kept.items) }
{
    let mut next: usize = 0;
    while next < sets.waiting.len() && next < most {
        let from = copied(alloc, sets.waiting.as_slice(), next)?;
        visit_wanted(alloc, log, under_way, at_hand, sparing, ending, &from, sets)?;
        next += 1;
    }
    Ok(())
}

/// The same configurations. Where some may have to be left out, those that can do more come first.
fn freest_first<O: Object>(
    log: &[Operation<O::What>],
    kept: Vec<Configuration<O>>,
) -> Vec<Configuration<O>>
    ensures { IsPermutation kept.items result.items }
{
    if kept.len() <= NARROW {
        return fewest_placed_first(kept);
    }
    let mut kept = kept;
    kept.sort_unstable_by_key(|one| rank_of(log, one));
    kept
}

/// The configurations behind the end of an operation to which those lead that are tried; of those that never ended none
/// is, where they are spared.
fn pass_wanted<O: Object>(
    alloc: Global,
    log: &[Operation<O::What>],
    under_way: &[usize],
    at_hand: &AtHand,
    sparing: bool,
    ending: usize,
    configurations: &[Configuration<O>],
    most: usize,
) -> Result<Vec<Configuration<O>>, AllocError>
    ensures { IfOk result (λ v. IsPassed false O.after log.now under_way.now ending configurations.now v.items) }
{
    let mut sets = start(alloc, log, ending, configurations)?;
    close_wanted(
        alloc, log, under_way, at_hand, sparing, ending, most, &mut sets,
    )?;
    let Ending { waiting: _, kept } = sets;
    Ok(freest_first(log, kept))
}

/// The same. Those that never ended are tried, where they are to be spared, only if nothing is kept without them.
fn pass_sparingly<O: Object>(
    alloc: Global,
    log: &[Operation<O::What>],
    under_way: &[usize],
    at_hand: &AtHand,
    sparing: bool,
    ending: usize,
    configurations: &[Configuration<O>],
    most: usize,
) -> Result<Vec<Configuration<O>>, AllocError>
    ensures { IfOk result (λ v. IsPassed false O.after log.now under_way.now ending configurations.now v.items) }
{
    if sparing {
        let kept = pass_wanted(
            alloc,
            log,
            under_way,
            at_hand,
            true,
            ending,
            configurations,
            most,
        )?;
        if !kept.is_empty() {
            return Ok(kept);
        }
    }
    pass_wanted(
        alloc,
        log,
        under_way,
        at_hand,
        false,
        ending,
        configurations,
        most,
    )
}

/// The same with all that they lead to, but for what isn't explored.
fn pass_open<O: Object>(
    alloc: Global,
    log: &[Operation<O::What>],
    under_way: &[usize],
    ending: usize,
    configurations: &[Configuration<O>],
    most: usize,
) -> Result<Passed<O>, AllocError>
    ensures { IfOk result (λ r. IsPassed r.whole O.after log.now under_way.now ending configurations.now r.kept.items) }
{
    let mut sets = start(alloc, log, ending, configurations)?;
    let whole = close(alloc, log, under_way, ending, most, &mut sets)?;
    let Ending { waiting: _, kept } = sets;
    Ok(Passed {
        kept: freest_first(log, kept),
        whole,
    })
}

/// No more of them than this many, the first.
fn narrowed<O: Object>(passed: Passed<O>, width: usize) -> Passed<O>
    ensures { IsNarrowed width passed.kept.items result.kept.items passed.whole result.whole }
{
    let Passed { mut kept, whole } = passed;
    let whole = whole && kept.len() <= width;
    kept.truncate(width);
    Passed { kept, whole }
}

/// Of the configurations behind the end of an operation no more than this many. Where they are to be fewest, those that
/// never ended are placed only where another one waits for what they leave, and at first only if none is left without.
pub(crate) fn pass_narrowly<O: Object>(
    alloc: Global,
    log: &[Operation<O::What>],
    under_way: &[usize],
    at_hand: &AtHand,
    sparing: bool,
    ending: usize,
    configurations: &[Configuration<O>],
    width: usize,
) -> Result<Passed<O>, AllocError>
    ensures { IfOk result (λ r. IsPassed r.whole O.after log.now under_way.now ending configurations.now r.kept.items) }
{
    let most = width.saturating_mul(EXPLORED);
    let passed = if width <= NARROW && !at_hand.unfinished.is_empty() {
        let kept = pass_sparingly(
            alloc,
            log,
            under_way,
            at_hand,
            sparing,
            ending,
            configurations,
            most,
        )?;
        Passed { kept, whole: false }
    } else {
        pass_open(alloc, log, under_way, ending, configurations, most)?
    };
    Ok(narrowed(passed, width))
}
