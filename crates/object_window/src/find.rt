//! The search for a window in which a log is lost, whatever the register held before. What it finds is judged at the
//! end; how it is found needs no proof.

ghost use Rattle.std.specs.Prelude.{IfOk, IfSome, IsTrue};
ghost use Rattle.object_window.specs.Together.{HasItsEnd, IsLostTogether};
ghost use Rattle.object_window.specs.Windows.{IsLostAnywhere};

use crate::loss::{Loss, loss_of};
use crate::window::{ended_before, is_unseen, little_log, op_at, seen_at};
use object_core::Operation;
use object_registers::Exchange;
use object_sweep::SweepError;
use std::alloc::{AllocError, Global};

/// How many operations a window may have before some are dropped, and how many are looked at together.
const MOST_WITHIN: usize = 1000;

const MOST_OPERATIONS: usize = 40;

/// How many configurations the sweep over them may hold.
const BUDGET: usize = 500;

/// Operations of a log, by their places, as they are seen from the first moment to the last one.
#[derive(Debug, Drop)]
pub struct Window {
    pub first: u64,
    pub last: u64,
    pub places: Vec<usize>,
}

/// A window in which the log is lost, whatever the register held before. Its last moment is the end of the operation at
/// this place, its first one as late as may be, and none of its operations can be left out alone. None where a bounded
/// search finds nothing.
pub fn find_window(
    alloc: Global,
    log: &[Operation<Exchange>],
    place: usize,
) -> Result<Option<Window>, AllocError>
    ensures { IfOk result (λ r. IfSome r (IsLostTogether log.now place)) }
{
    let Some(last) = end_at(log, place) else {
        return Ok(None);
    };
    let Some((first, places)) = search(alloc, log, last)? else {
        return Ok(None);
    };
    judge(
        alloc,
        log,
        place,
        Window {
            first,
            last,
            places,
        },
    )
}

/// The window, if it is one and the log is lost in it.
fn judge(
    alloc: Global,
    log: &[Operation<Exchange>],
    place: usize,
    window: Window,
) -> Result<Option<Window>, AllocError>
    requires { HasItsEnd log.now place window.last }
    ensures { IfOk result (λ r. IfSome r (IsLostTogether log.now place)) }
{
    if is_lost_together(alloc, log, place, &window)? {
        Ok(Some(window))
    } else {
        Ok(None)
    }
}

fn is_lost_together(
    alloc: Global,
    log: &[Operation<Exchange>],
    place: usize,
    window: &Window,
) -> Result<bool, AllocError>
    requires { HasItsEnd log.now place window.now.last }
    ensures { IfOk result (λ b. IsTrue b → IsLostTogether log.now place window.now) }
{
    match little_log(
        alloc,
        log,
        window.first,
        window.last,
        window.places.as_slice(),
    )? {
        Some(little) => is_lost_anywhere(alloc, little.as_slice()),
        None => Ok(false),
    }
}

/// Whether a little log is known to be lost.
fn is_lost_anywhere(alloc: Global, little: &[Operation<Exchange>]) -> Result<bool, AllocError>
    ensures { IfOk result (λ b. IsTrue b → IsLostAnywhere little.now) }
{
    match loss_of(alloc, little, BUDGET) {
        Ok(Loss::Anywhere) => Ok(true),
        Ok(_) => Ok(false),
        Err(SweepError::NoMemory) => Err(AllocError),
        Err(SweepError::Backwards { place: _ }) => Ok(false),
    }
}

/// Whether the log is known to be lost at these places, as they are seen.
fn is_lost_at(
    alloc: Global,
    log: &[Operation<Exchange>],
    first: u64,
    last: u64,
    places: &[usize],
) -> Result<bool, AllocError> {
    match seen_at(alloc, log, first, last, places)? {
        Some(little) => is_lost_anywhere(alloc, little.as_slice()),
        None => Ok(false),
    }
}

fn end_at(log: &[Operation<Exchange>], place: usize) -> Option<u64>
    ensures { IfSome result (HasItsEnd log.now place) }
{
    match log.get(place) {
        Some(op) => op.ends,
        None => None,
    }
}

/// The first moment of a window to this one, and the places of its operations.
fn search(
    alloc: Global,
    log: &[Operation<Exchange>],
    last: u64,
) -> Result<Option<(u64, Vec<usize>)>, AllocError> {
    let Some(mut window) = widen(alloc, log, last)? else {
        return Ok(None);
    };
    narrow(alloc, log, &mut window)?;
    thin(alloc, log, &mut window)?;
    let Window { first, places, .. } = window;
    Ok(Some((first, places)))
}

/// The first one that is lost, of the windows to this moment that begin earlier and earlier, each twice as far back.
fn widen(
    alloc: Global,
    log: &[Operation<Exchange>],
    last: u64,
) -> Result<Option<Window>, AllocError> {
    let mut width: u64 = 1;
    for _ in 0..65 {
        let first = last.saturating_sub(width);
        let Some(places) = places_from(alloc, log, first, last)? else {
            return Ok(None);
        };
        if is_lost_at(alloc, log, first, last, places.as_slice())? {
            return Ok(Some(Window {
                first,
                last,
                places,
            }));
        }
        if first == 0 {
            return Ok(None);
        }
        width = width.saturating_mul(2);
    }
    Ok(None)
}

/// The places of the operations between two moments but the needless ones, if they aren't too many.
fn places_from(
    alloc: Global,
    log: &[Operation<Exchange>],
    first: u64,
    last: u64,
) -> Result<Option<Vec<usize>>, AllocError> {
    let mut places = Vec::new(alloc);
    for place in 0..log.len() {
        push_within(&mut places, log, place, first, last)?;
        if MOST_WITHIN < places.len() {
            return Ok(None);
        }
    }
    let needed = without_needless(alloc, log, first, last, places)?;
    if MOST_OPERATIONS < needed.len() {
        Ok(None)
    } else {
        Ok(Some(needed))
    }
}

/// These places without those of needless operations, which need not stand in an order and leave nothing that the others
/// look at.
fn without_needless(
    alloc: Global,
    log: &[Operation<Exchange>],
    first: u64,
    last: u64,
    places: Vec<usize>,
) -> Result<Vec<usize>, AllocError> {
    let mut left = places;
    for _ in 0..MOST_WITHIN {
        let fewer = needed_of(alloc, log, first, last, left.as_slice())?;
        if fewer.len() == left.len() {
            return Ok(fewer);
        }
        left = fewer;
    }
    Ok(left)
}

fn needed_of(
    alloc: Global,
    log: &[Operation<Exchange>],
    first: u64,
    last: u64,
    places: &[usize],
) -> Result<Vec<usize>, AllocError> {
    let mut needed = Vec::new(alloc);
    let Some(little) = seen_at(alloc, log, first, last, places)? else {
        return Ok(needed);
    };
    for i in 0..places.len() {
        push_needed(&mut needed, little.as_slice(), places[i], i)?;
    }
    Ok(needed)
}

fn push_needed(
    needed: &mut Vec<usize>,
    little: &[Operation<Exchange>],
    place: usize,
    i: usize,
) -> Result<(), AllocError> {
    if !is_needless(little, op_at(little, i)) {
        needed.push(place)?;
    }
    Ok(())
}

fn is_needless(little: &[Operation<Exchange>], op: Option<Operation<Exchange>>) -> bool {
    match op {
        Some(op) => (op.maybe || op.ends.is_none()) && is_unseen(little, op.what),
        None => true,
    }
}

fn push_within(
    places: &mut Vec<usize>,
    log: &[Operation<Exchange>],
    place: usize,
    first: u64,
    last: u64,
) -> Result<(), AllocError> {
    if is_within(log, place, first, last) {
        places.push(place)?;
    }
    Ok(())
}

fn is_within(log: &[Operation<Exchange>], place: usize, first: u64, last: u64) -> bool {
    match log.get(place) {
        Some(op) => op.starts <= last && !ended_before(op.ends, first),
        None => false,
    }
}

/// Lets the window begin at the latest moment from which it is lost.
fn narrow(
    alloc: Global,
    log: &[Operation<Exchange>],
    window: &mut Window,
) -> Result<(), AllocError> {
    if begin_later(alloc, log, window, window.last)? {
        return Ok(());
    }
    let mut beyond = window.last;
    for _ in 0..64 {
        let half = beyond.saturating_sub(window.first) / 2;
        if half == 0 {
            return Ok(());
        }
        let middle = window.first.saturating_add(half);
        if !begin_later(alloc, log, window, middle)? {
            beyond = middle;
        }
    }
    Ok(())
}

/// Whether the window is lost from this moment on; it begins there then.
fn begin_later(
    alloc: Global,
    log: &[Operation<Exchange>],
    window: &mut Window,
    first: u64,
) -> Result<bool, AllocError> {
    let places = those_within(alloc, log, window.places.as_slice(), first, window.last)?;
    if !is_lost_at(alloc, log, first, window.last, places.as_slice())? {
        return Ok(false);
    }
    window.first = first;
    window.places = places;
    Ok(true)
}

fn those_within(
    alloc: Global,
    log: &[Operation<Exchange>],
    places: &[usize],
    first: u64,
    last: u64,
) -> Result<Vec<usize>, AllocError> {
    let mut left = Vec::new(alloc);
    for i in 0..places.len() {
        push_within(&mut left, log, places[i], first, last)?;
    }
    Ok(left)
}

/// Leaves out what can be left out, beginning with the last one.
fn thin(alloc: Global, log: &[Operation<Exchange>], window: &mut Window) -> Result<(), AllocError> {
    for _ in 0..MOST_OPERATIONS {
        let count = window.places.len();
        for behind in 0..count {
            leave_out(alloc, log, window, count - 1 - behind)?;
        }
        if window.places.len() == count {
            return Ok(());
        }
    }
    Ok(())
}

/// Leaves out one of the operations, if it can be.
fn leave_out(
    alloc: Global,
    log: &[Operation<Exchange>],
    window: &mut Window,
    at: usize,
) -> Result<(), AllocError> {
    let Some(place) = window.places.as_slice().get(at).copied() else {
        return Ok(());
    };
    let places = all_but(alloc, window.places.as_slice(), place)?;
    if !may_lack(
        alloc,
        log,
        window.first,
        window.last,
        places.as_slice(),
        place,
    )? {
        return Ok(());
    }
    window.places = places;
    Ok(())
}

fn all_but(alloc: Global, places: &[usize], place: usize) -> Result<Vec<usize>, AllocError> {
    places
        .iter()
        .copied()
        .filter(|other| *other != place)
        .collect(alloc)
}

/// Whether the log is lost at these places, and nothing there looks at what the operation at the other one leaves.
fn may_lack(
    alloc: Global,
    log: &[Operation<Exchange>],
    first: u64,
    last: u64,
    places: &[usize],
    other: usize,
) -> Result<bool, AllocError> {
    let Some(op) = op_at(log, other) else {
        return Ok(false);
    };
    match seen_at(alloc, log, first, last, places)? {
        Some(little) => is_lost_without(alloc, little.as_slice(), op.what),
        None => Ok(false),
    }
}

fn is_lost_without(
    alloc: Global,
    little: &[Operation<Exchange>],
    what: Exchange,
) -> Result<bool, AllocError> {
    if is_unseen(little, what) {
        is_lost_anywhere(alloc, little)
    } else {
        Ok(false)
    }
}
