//! The search.

ghost use Rattle.std.specs.Prelude.{◌≡◌, ◌↔◌, ℕ, ◌<◌, IfNone, IfOk, IfSome, IsSomeAnd, IsTrue, MatchResult};
ghost use Rattle.history_core.specs.Searches.{AreForwards, IsAnswered, IsBackwards, IsFault, IsOneTerm};

use crate::group::group_ops;
use crate::group_search::search_groups;
use history_core::{History, Op, Search, SearchError, Term};
use std::alloc::Global;

/// A lawful order of the history, or a reason why there is none: of the first rule of `Reason` that any reason
/// has. The history has one term, in which each record is written at most once and none is the opening. It takes n
/// log n steps for n operations.
pub fn find_order<R: Copy + Ord>(alloc: Global, h: &History<R>) -> Result<Search, SearchError>
    ensures { MatchResult result (IsAnswered (λ x y. IsTrue (R.eq x y)) h.now.opening h.now.terms h.now.ops)
        (IsFault (λ x y. IsTrue (R.eq x y)) h.now.opening h.now.terms h.now.ops) }
{
    let Some(limit) = one_limit(h.terms.as_slice()) else {
        return Err(SearchError::Terms);
    };
    let ops = h.ops.as_slice();
    if let Some(place) = first_backwards(ops) {
        return Err(SearchError::Backwards { place });
    }
    let groups = match group_ops(alloc, h.opening, ops) {
        Ok(groups) => groups,
        Err(error) => return Err(error),
    };
    match search_groups(alloc, limit, ops, groups.as_slice()) {
        Ok(search) => Ok(search),
        Err(_) => Err(SearchError::NoMemory),
    }
}

/// The limit of the one term that begins with the first operation, or none.
fn one_limit(terms: &[Term]) -> Option<u64>
    ensures some { IfSome result (λ limit. IsOneTerm limit terms.now) }
    ensures none { IfNone result ((limit : ℕ) → IsOneTerm limit terms.now → ⊥) }
{
    if terms.len() == 1 && terms[0].first == 0 {
        Some(terms[0].limit)
    } else {
        None
    }
}

/// The first operation that ends before it begins.
fn first_backwards<R>(ops: &[Op<R>]) -> Option<usize>
    ensures some { IfSome result (λ p. IsBackwards ops.now p × AreForwards ops.now p) }
    ensures none { IfNone result ((n : ℕ) → AreForwards ops.now n) }
{
    for place in 0..ops.len() {
        if is_backwards(&ops[place]) {
            return Some(place);
        }
    }
    None
}

fn is_backwards<R>(op: &Op<R>) -> bool
    ensures { IsTrue result ↔ IsSomeAnd op.now.ends (λ end. end < op.now.starts) }
{
    match op.ends {
        Some(end) => end < op.starts,
        None => false,
    }
}
