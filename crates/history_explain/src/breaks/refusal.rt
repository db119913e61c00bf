//! What breaks the fourth rule: a refused write with too few writes of its term before it.

ghost use Rattle.std.specs.Prelude.{◌≡◌, ◌<◌, ◌≤◌, ◌⊎◌, IfNone, IfSome, length, take};
ghost use Rattle.history_explain.specs.Breaks.{IsRefusedEarly};
ghost use Rattle.history_core.specs.Orders.{KeepsLimit, ListsPlaces, RefusesLawfully};
ghost use Rattle.history_check.specs.Ranges.{is_between};
ghost use Rattle.history_explain.specs.inner.Searches.{end_of, entry_of, IsEarly};

use history_check::ranges::{count, is_within};
use history_core::{Op, Term};

/// A write that was refused too early.
#[derive(Clone, Copy)]
pub(super) struct Early {
    pub(super) entry: usize,
    /// The writes of its term before it.
    pub(super) writes: u64,
}

/// The first entry that was refused too early. It goes over the terms from the last to the first, as the check of the
/// limit does, and for each over the entries before the one that it has found.
pub(super) fn refused_early<R>(terms: &[Term], ops: &[Op<R>], order: &[usize]) -> Option<Early>
    requires { ListsPlaces ops.now order.now }
    ensures none { IfNone result (RefusesLawfully terms.now ops.now order.now) }
    ensures some { IfSome result (λ e. IsRefusedEarly terms.now ops.now order.now e.entry e.writes) }
{
    let mut found = None;
    let mut next = ops.len();
    for k in (0..terms.len()).rev() {
        let term = terms[k];
        found = early_before(ops, order, term.first, next, term.limit, found);
        next = next.min(term.first);
    }
    found
}

/// The first write at a place from `first` up to `next` that is refused too early, of those before the one that
/// was found; or else that one.
fn early_before<R>(
    ops: &[Op<R>],
    order: &[usize],
    first: usize,
    next: usize,
    limit: u64,
    found: Option<Early>,
) -> Option<Early>
    requires places { ListsPlaces ops.now order.now }
    requires within { IfSome found (λ e. e.entry ≤ length order.now) }
    ensures lawful { KeepsLimit (is_between first next) limit ops.now
        (take (end_of (entry_of result) (length order.now)) order.now) }
    ensures early { (result ≡ found)
        ⊎ ((end_of (entry_of result) (length order.now) < end_of (entry_of found) (length order.now))
        × IfSome result (λ e. IsEarly first next limit ops.now order.now e)) }
{
    let end = end_of(found, order.len());
    let mut writes: u64 = 0;
    for entry in 0..end {
        let place = order[entry];
        match count(is_within(first, next, place), &ops[place], limit, writes) {
            Some(counted) => writes = counted,
            None => return Some(Early { entry, writes }),
        }
    }
    found
}

/// How far the order is still to be searched.
fn end_of(found: Option<Early>, long: usize) -> usize
    ensures { result ≡ end_of (entry_of found) long }
{
    match found {
        Some(early) => early.entry,
        None => long,
    }
}
