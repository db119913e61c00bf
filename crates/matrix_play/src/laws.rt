//! Laws over the definitions.

ghost use Rattle.std.specs.Prelude.{◌≡◌, ◌<◌, ℕ, List, length, Option, Some};
ghost use Rattle.history_core.specs.declared.history.Op.{Op};
ghost use Rattle.history_core.specs.Schedules.{IsPlayed, Span};
ghost use Rattle.matrix_core.specs.declared.stamp.Stamp.{Stamp};
ghost use Rattle.matrix_core.specs.declared.stamp.Stamped.{Stamped};
ghost use Rattle.matrix_core.specs.ByAccesses.{IsCut, chooses_at};
ghost use Rattle.matrix_play.specs.MatrixRuns.{IsMatrixRun};

/// The run of a term over a matrix is as exact as a function: two runs of one schedule chose the same records, and the
/// stamps and the items of a report are those that were chosen.
pub fn matrix_runs_agree<R>()
    ensures { (at : ℕ) (span : Span R) (opening : R) (ops these : List (Op R)) (stamps those : List (Option Stamp))
        (chosen picked : ℕ → ℕ → Stamped R) → IsCut 1 span → IsPlayed at span ops → IsPlayed at span these →
        IsMatrixRun at span opening ops stamps chosen → IsMatrixRun at span opening these those picked → (i k t : ℕ) →
        i < length span.plans → chooses_at at span 1 i k ≡ Some t → chosen i k ≡ picked i k }
{}
