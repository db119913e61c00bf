//! The ends up to a moment.

ghost use Rattle.std.specs.Prelude.{ℕ, ◌+◌, ◌≤◌, List, IfOk, IfSome};
ghost use Rattle.object_core.specs.declared.operation.Operation.{Operation};
ghost use Rattle.object_watch.specs.Remainders.{AreAhead};
ghost use Rattle.object_watch.specs.Watches.{IsHeldOf};
ghost use Rattle.object_watch.specs.inner.Levels.{AreLeftBehind};
ghost use Rattle.object_watch.specs.inner.Passes.{ArePassed, IsAheadPassed, IsOfPassed};

use crate::ends::next_end;
use crate::level::{copied, visit};
use crate::remainder::Remainder;
use object_core::{Object, Operation};
use std::alloc::{AllocError, Global};

/// What the ends up to a moment leave.
#[derive(Drop)]
pub(crate) enum Passed<O, W> {
    Open(Vec<Remainder<O, W>>),
    /// This end leaves nothing.
    Lost { at: u64, op: Operation<W> },
    /// This one more than the budget.
    TooMany { at: u64 },
}

/// What the ends of a moment leave, of which none is earlier; none where more than the budget are seen. Each that is
/// seen is visited, until that leads to nothing new.
fn pass<O: Object>(
    alloc: Global,
    end: u64,
    held: Vec<Remainder<O, O::What>>,
    budget: usize,
) -> Result<Option<Vec<Remainder<O, O::What>>>, AllocError>
    requires { AreAhead end held.items }
    ensures { IfOk result (λ r. IfSome r (λ kept. AreLeftBehind O.after end held.items kept.items)) }
{
    let mut seen = held;
    let mut kept = Vec::new(alloc);
    let mut next: usize = 0;
    while next < seen.len() {
        if budget <= next {
            return Ok(None);
        }
        let from = copied(alloc, seen.as_slice(), next)?;
        visit(alloc, end, &from, &mut seen, &mut kept)?;
        next += 1;
    }
    Ok(Some(kept))
}

/// What all ends up to a moment leave, or the first that leaves nothing or too many.
pub(crate) fn pass_ends<O: Object>(
    alloc: Global,
    held: Vec<Remainder<O, O::What>>,
    last: u64,
    budget: usize,
) -> Result<Passed<O, O::What>, AllocError>
    requires { AreAhead 0 held.items }
    ensures ahead { IfOk result (IsAheadPassed last) }
    ensures of { IfOk result (IsOfPassed O.after held.items) }
    ensures passed { IfOk result (λ passed. (opening : O) (log : List (Operation O.What)) (moment : ℕ) →
        moment ≤ last + 1 → IsHeldOf O.after opening log moment held.items →
        ArePassed O.after opening log moment last passed) }
{
    let mut held = held;
    while let Some(end) = next_end(held.as_slice(), last) {
        match pass(alloc, end.at, held, budget)? {
            Some(kept) => held = kept,
            None => return Ok(Passed::TooMany { at: end.at }),
        }
        if held.is_empty() {
            return Ok(Passed::Lost {
                at: end.at,
                op: end.op,
            });
        }
    }
    Ok(Passed::Open(held))
}
