//! The record that an operation found, and the first operation that can have left it.

ghost use Rattle.std.specs.Prelude.{◌≡◌, ◌↔◌, ◌<◌, ◌+◌, ℕ, IsTrue, IsSomeAnd, Some, length, slice_get};
ghost use Rattle.object_registers.specs.Registers.{found_by, Makes};
ghost use Rattle.object_sources.specs.Sources.{HasFoundAnother, IsUnsourced, MayLeave};
ghost use Rattle.object_sources.specs.inner.Firsts.{IsFirstBelow, IsUnsourcedOf, is_sooner, starts_at};

use object_core::Operation;
use object_registers::Exchange;

/// Why an operation can't have found its record.
#[derive(Clone, Copy, Debug, PartialEq, Eq)]
pub enum Unsourced {
    /// No operation can leave it.
    Unwritten,
    /// Each one that can leave it began after the operation had ended. That at `source` is the first of them, and of
    /// several that began at once that at the least place.
    Early { source: usize },
}

/// Why the operation at a place can't have found its record in a register that held `opening` at first. None if one that
/// can leave it began in time, if it is the opening, or if it isn't sure that one was found.
pub fn unsourced_at(opening: u64, log: &[Operation<Exchange>], place: usize) -> Option<Unsourced>
    ensures { IsUnsourced opening log.now place result }
{
    let Some(op) = op_at(log, place) else {
        return None;
    };
    match found_at(opening, op) {
        Some(value) => why_unsourced(log, op, value),
        None => None,
    }
}

fn op_at(log: &[Operation<Exchange>], place: usize) -> Option<Operation<Exchange>>
    ensures { result ≡ slice_get log.now place }
{
    match log.get(place) {
        Some(op) => Some(*op),
        None => None,
    }
}

/// The record that an operation is sure to have found, if it isn't the opening.
fn found_at(opening: u64, op: Operation<Exchange>) -> Option<u64>
    ensures { (value : ℕ) → (result ≡ Some value) ↔ HasFoundAnother opening value op }
{
    if op.ends.is_none() || op.maybe {
        return None;
    }
    match found_by(op.what) {
        Some(value) => if value == opening { None } else { Some(value) },
        None => None,
    }
}

fn found_by(what: Exchange) -> Option<u64>
    ensures { result ≡ found_by what }
{
    match what {
        Exchange::Gets(seen) => Some(seen),
        Exchange::Swaps(from, _) => Some(from),
        Exchange::Finds(_, found) => Some(found),
        Exchange::Refuses(seen) => Some(seen),
        Exchange::Sets(_) => None,
        Exchange::Misses(_) => None,
        Exchange::Tries(_, _) => None,
    }
}

/// Why this operation can't have found this record.
fn why_unsourced(
    log: &[Operation<Exchange>],
    op: Operation<Exchange>,
    value: u64,
) -> Option<Unsourced>
    ensures { (place : ℕ) → IsUnsourcedOf log.now place op value result }
{
    match first_source(log, value) {
        None => Some(Unsourced::Unwritten),
        Some(source) => if ended_before(op.ends, starts_at(log, source)) {
            Some(Unsourced::Early { source })
        } else {
            None
        },
    }
}

fn ended_before(ends: Option<u64>, moment: u64) -> bool
    ensures { IsTrue result ↔ IsSomeAnd ends (λ end. end < moment) }
{
    match ends {
        Some(end) => end < moment,
        None => false,
    }
}

/// The first source of a record.
fn first_source(log: &[Operation<Exchange>], value: u64) -> Option<usize>
    ensures { IsFirstBelow log.now value (length log.now) result }
{
    let mut first = None;
    for at in 0..log.len() {
        first = first_of(log, value, first, at);
    }
    first
}

/// The first of those so far and the operation at one more place.
fn first_of(
    log: &[Operation<Exchange>],
    value: u64,
    first: Option<usize>,
    at: usize,
) -> Option<usize>
    ensures { IsFirstBelow log.now value at first → IsFirstBelow log.now value (at + 1) result }
{
    if may_leave(log, value, at) && is_sooner(log, at, first) {
        Some(at)
    } else {
        first
    }
}

fn is_sooner(log: &[Operation<Exchange>], at: usize, first: Option<usize>) -> bool
    ensures { result ≡ is_sooner log.now at first }
{
    match first {
        Some(first) => starts_at(log, at) < starts_at(log, first),
        None => true,
    }
}

fn starts_at(log: &[Operation<Exchange>], place: usize) -> u64
    ensures { result ≡ starts_at log.now place }
{
    match log.get(place) {
        Some(op) => op.starts,
        None => 0,
    }
}

/// Whether the operation at a place can leave a record.
fn may_leave(log: &[Operation<Exchange>], value: u64, at: usize) -> bool
    ensures { IsTrue result ↔ MayLeave log.now value at }
{
    match log.get(at) {
        Some(op) => makes(value, op.what),
        None => false,
    }
}

/// Whether an operation can leave a record where another one was.
fn makes(value: u64, what: Exchange) -> bool
    ensures { IsTrue result ↔ Makes value what }
{
    match what {
        Exchange::Sets(to) => to == value,
        Exchange::Swaps(from, to) => to == value && from != value,
        Exchange::Tries(from, to) => to == value && from != value,
        Exchange::Gets(_) => false,
        Exchange::Misses(_) => false,
        Exchange::Finds(_, _) => false,
        Exchange::Refuses(_) => false,
    }
}
