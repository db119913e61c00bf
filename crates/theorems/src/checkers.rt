//! What the checker and the search promise.
ghost use Rattle.std.specs.Prelude.{IsTrue};
ghost use Rattle.theorems.specs.Checkers.{CheckerTheorem};

use history_check::check_order;
use history_core::{History, Search, SearchError, Verdict};
use history_search::find_order;
use std::alloc::Global;

/// Judges an order of a history, and searches for a lawful one.
pub fn checker_theorem<R: Copy + Ord>(
    alloc: Global,
    h: &History<R>,
    order: &[usize],
) -> (Verdict, Result<Search, SearchError>)
    ensures { CheckerTheorem (λ x y. IsTrue (R.eq x y))
        h.now.opening h.now.terms h.now.ops order.now result.0 result.1 }
{
    let verdict = check_order(h, order);
    let found = find_order(alloc, h);
    (verdict, found)
}
