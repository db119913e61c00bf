//! Windows of a log.

ghost use Rattle.std.specs.Prelude.{◌≡◌, ◌↔◌, ℕ, ◌<◌, false, IfOk, IfSome, IsSomeAnd, IsFalse, IsTrue, Some, slice_get};
ghost use Rattle.object_registers.specs.Registers.{Makes};
ghost use Rattle.object_sweep.specs.Reached.{is_in};
ghost use Rattle.object_window.specs.Windows.{AreSeen, DoRise, end_by, IsUnseen, IsWindow, LooksAt};
ghost use Rattle.object_window.specs.Windows.{NeedNotBeThere, seen};
ghost use Rattle.object_window.specs.inner.Parts.{AreOthersFree, IsLessAt, NothingLooksAt};

use object_core::Operation;
use object_registers::Exchange;
use std::alloc::{AllocError, Global};

/// The little log of a window, the operations at these places as they are seen from the first moment to the last one;
/// none where that isn't a window.
pub fn little_log(
    alloc: Global,
    log: &[Operation<Exchange>],
    first: u64,
    last: u64,
    places: &[usize],
) -> Result<Option<Vec<Operation<Exchange>>>, AllocError>
    ensures { IfOk result (λ r. IfSome r (λ v. IsWindow first last places.now log.now v.items)) }
{
    if !do_rise(places) {
        return Ok(None);
    }
    let Some(little) = seen_at(alloc, log, first, last, places)? else {
        return Ok(None);
    };
    if are_others_free(log, first, last, places, little.as_slice()) {
        Ok(Some(little))
    } else {
        Ok(None)
    }
}

fn do_rise(places: &[usize]) -> bool
    ensures { IsTrue result → DoRise places.now }
{
    for i in 1..places.len() {
        if !is_less_at(places, i - 1, i) {
            return false;
        }
    }
    true
}

fn is_less_at(places: &[usize], i: usize, j: usize) -> bool
    ensures { IsTrue result → IsLessAt places.now i j }
{
    match (place_at(places, i), place_at(places, j)) {
        (Some(p), Some(q)) => p < q,
        _ => true,
    }
}

fn place_at(places: &[usize], i: usize) -> Option<usize>
    ensures { result ≡ slice_get places.now i }
{
    places.get(i).copied()
}

/// The operations at these places, as they are seen; none where a place isn't one of the log.
pub(crate) fn seen_at(
    alloc: Global,
    log: &[Operation<Exchange>],
    first: u64,
    last: u64,
    places: &[usize],
) -> Result<Option<Vec<Operation<Exchange>>>, AllocError>
    ensures { IfOk result (λ r. IfSome r (λ v. AreSeen first last places.now log.now v.items)) }
{
    let mut little = Vec::new(alloc);
    for i in 0..places.len() {
        let Some(op) = op_at(log, places[i]) else {
            return Ok(None);
        };
        little.push(seen(first, last, op))?;
    }
    Ok(Some(little))
}

pub(crate) fn op_at(log: &[Operation<Exchange>], place: usize) -> Option<Operation<Exchange>>
    ensures { result ≡ slice_get log.now place }
{
    match log.get(place) {
        Some(op) => Some(*op),
        None => None,
    }
}

fn seen(first: u64, last: u64, op: Operation<Exchange>) -> Operation<Exchange>
    ensures { result ≡ seen first last op }
{
    Operation {
        starts: op.starts,
        ends: end_by(last, op.ends),
        maybe: op.maybe || op.starts < first,
        what: op.what,
    }
}

fn end_by(last: u64, ends: Option<u64>) -> Option<u64>
    ensures { result ≡ end_by last ends }
{
    match ends {
        Some(end) => if end <= last { Some(end) } else { None },
        None => None,
    }
}

/// Whether all others need not be there.
fn are_others_free(
    log: &[Operation<Exchange>],
    first: u64,
    last: u64,
    places: &[usize],
    little: &[Operation<Exchange>],
) -> bool
    ensures { IsTrue result → AreOthersFree first last places.now log.now little.now }
{
    for q in 0..log.len() {
        if !is_excused(first, last, places, little, q, &log[q]) {
            return false;
        }
    }
    true
}

/// Whether the operation is there, or need not be.
fn is_excused(
    first: u64,
    last: u64,
    places: &[usize],
    little: &[Operation<Exchange>],
    place: usize,
    op: &Operation<Exchange>,
) -> bool
    ensures { IsTrue result → is_in place places.now ≡ false → NeedNotBeThere first last little.now op.now }
{
    if is_in(place, places) {
        return true;
    }
    is_free(first, last, little, op)
}

fn is_in(place: usize, places: &[usize]) -> bool
    ensures { result ≡ is_in place places.now }
{
    places.contains(&place)
}

fn is_free(first: u64, last: u64, little: &[Operation<Exchange>], op: &Operation<Exchange>) -> bool
    ensures { IsTrue result → NeedNotBeThere first last little.now op.now }
{
    if ended_before(op.ends, first) {
        return true;
    }
    if last < op.starts {
        return true;
    }
    is_unseen(little, op.what)
}

pub(crate) fn ended_before(ends: Option<u64>, moment: u64) -> bool
    ensures { IsTrue result ↔ IsSomeAnd ends (λ end. end < moment) }
{
    match ends {
        Some(end) => end < moment,
        None => false,
    }
}

/// Whether nothing of the log looks at what this leaves.
pub(crate) fn is_unseen(log: &[Operation<Exchange>], what: Exchange) -> bool
    ensures { IsTrue result → IsUnseen log.now what }
{
    match made(what) {
        Some(value) => !is_seen(log, value),
        None => true,
    }
}

fn is_seen(log: &[Operation<Exchange>], value: u64) -> bool
    ensures { IsFalse result → NothingLooksAt log.now value }
{
    for i in 0..log.len() {
        if looks_at(value, log[i].what) {
            return true;
        }
    }
    false
}

fn looks_at(value: u64, what: Exchange) -> bool
    ensures { IsTrue result ↔ LooksAt value what }
{
    match what {
        Exchange::Sets(_) => false,
        Exchange::Gets(seen) => seen == value,
        Exchange::Swaps(from, _) => from == value,
        Exchange::Misses(_) => true,
        Exchange::Finds(_, found) => found == value,
        Exchange::Tries(from, _) => from == value,
        Exchange::Refuses(seen) => seen == value,
    }
}

/// What an operation can leave where another record was.
fn made(what: Exchange) -> Option<u64>
    ensures { (value : ℕ) → (result ≡ Some value) ↔ Makes value what }
{
    match what {
        Exchange::Sets(to) => Some(to),
        Exchange::Swaps(from, to) => if from == to { None } else { Some(to) },
        Exchange::Tries(from, to) => if from == to { None } else { Some(to) },
        _ => None,
    }
}
