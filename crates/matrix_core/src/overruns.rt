//! The first step of a process that has no operation left.

ghost use Rattle.std.specs.Prelude.{◌≡◌, ◌+◌, ◌*◌, ◌<◌, ◌≤◌, ℕ, length, IfNone, IfSome, Some, slice_get};
ghost use Rattle.history_core.specs.Schedules.{HasOperations, IsFirstOverrun, Overruns};
ghost use Rattle.matrix_core.specs.declared.schedule.MatrixTerm.{MatrixTerm};
ghost use Rattle.matrix_core.specs.Runs.{accesses_by, IsTerm, max_position, span_by, spans_by, step_count};

use crate::schedule::MatrixTerm;

/// What the cells of a schedule are: an access is one step of an atomic cell, and the five events of a four-slot cell.
#[derive(Clone, Copy)]
pub enum Cells {
    Atomic,
    FourSlot,
}

impl Cells {
    /// The accesses of an operation among `n` processes.
    fn accesses(self, n: usize) -> usize
        requires { 2 ≤ n × n ≤ 16 }
        ensures count { result ≡ accesses_by self n }
        ensures some { 0 < result }
    {
        match self {
            Cells::Atomic => 2 * (n - 1),
            Cells::FourSlot => 10 * (n - 1),
        }
    }
}

/// The first step of a process that has no operation left in its term, counted through all terms.
pub fn first_overrun<R>(cells: Cells, terms: &[MatrixTerm<R>]) -> Option<u64>
    requires each { (k : ℕ) (term : MatrixTerm R) → slice_get terms.now k ≡ Some term → IsTerm term }
    requires steps { step_count terms.now < max_position }
    ensures none { IfNone result (HasOperations (spans_by cells terms.now)) }
    ensures first { IfSome result (IsFirstOverrun (spans_by cells terms.now)) }
{
    let mut before: u64 = 0;
    for term in terms {
        match overrun_of(cells, term) {
            Some(step) => return Some(before + step),
            None => before += term.steps.as_slice().len() as u64,
        }
    }
    None
}

/// The same in one term, counted from its first step.
fn overrun_of<R>(cells: Cells, term: &MatrixTerm<R>) -> Option<u64>
    requires { IsTerm term.now }
    ensures none { IfNone result ((step : ℕ) → ¬ Overruns (span_by cells term.now) step) }
    ensures first { IfSome result
        (λ step. Overruns (span_by cells term.now) step
        × ((q : ℕ) → q < step → ¬ Overruns (span_by cells term.now) q)) }
    ensures inside { IfSome result (λ step. step < length term.now.steps) }
{
    let plans = term.plans.as_slice();
    let accesses = cells.accesses(plans.len());
    let mut made = [0usize; 16];
    for (step, who) in term.steps.as_slice().iter().enumerate() {
        if made[*who] / accesses >= plans[*who].as_slice().len() {
            return Some(step as u64);
        }
        made[*who] += 1;
    }
    None
}
