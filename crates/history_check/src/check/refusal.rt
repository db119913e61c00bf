//! The fourth rule: before each refused write stand at least as many writes of its term as the limit of the term.

ghost use Rattle.std.specs.Prelude.{◌<◌, ◌↔◌, IsTrue};
ghost use Rattle.history_core.specs.Orders.{KeepsLimit, ListsPlaces, RefusesLawfully};
ghost use Rattle.history_check.specs.Ranges.{is_between};

use crate::ranges::{count, is_within};
use history_core::{Op, Term};

/// Whether each refused write is lawful. It goes over the terms from the last to the first: a term has the places from
/// its first on that are below `next`, the least first of the terms after it.
pub(super) fn refuses_lawfully<R>(terms: &[Term], ops: &[Op<R>], order: &[usize]) -> bool
    requires { ListsPlaces ops.now order.now }
    ensures { IsTrue result ↔ RefusesLawfully terms.now ops.now order.now }
{
    let mut next = ops.len();
    for k in (0..terms.len()).rev() {
        let term = terms[k];
        if !keeps_limit(ops, order, term.first, next, term.limit) {
            return false;
        }
        next = next.min(term.first);
    }
    true
}

/// Whether each refused write at a place from `first` up to `next` has at least `limit` writes before it at
/// such places.
fn keeps_limit<R>(ops: &[Op<R>], order: &[usize], first: usize, next: usize, limit: u64) -> bool
    requires { ListsPlaces ops.now order.now }
    ensures { IsTrue result ↔ KeepsLimit (is_between first next) limit ops.now order.now }
{
    let mut writes: u64 = 0;
    for place in order {
        match count(is_within(first, next, *place), &ops[*place], limit, writes) {
            Some(counted) => writes = counted,
            None => return false,
        }
    }
    true
}
