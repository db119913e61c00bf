//! Laws over the definitions, and small logs, worked.

ghost use Rattle.std.specs.Prelude.{◌≡◌, ℕ, List, [], ◌∷◌};
ghost use Rattle.history_core.specs.declared.history.Op.{Op};
ghost use Rattle.history_core.specs.Orders.{IsAtomicOrder};
ghost use Rattle.history_core.specs.Reasons.{IsStale, IsUnwritten};
ghost use Rattle.history_thinning.specs.Tasks.{TasksTakeTurns};
ghost use Rattle.history_thinning.specs.Thinnings.{Equal};
ghost use Rattle.history_coherence.specs.declared.coherence.Link.{Link};
ghost use Rattle.history_coherence.specs.Answers.{AreWrittenOnce};
ghost use Rattle.history_coherence.specs.Coherent.{IsCoherent, IsCoherentOrder};
ghost use Rattle.history_coherence.specs.Incoherent.{IsAheadOfWrite, IsCircle};
ghost use Rattle.history_coherence.specs.Instances.{again_log, ahead_log, crossed_log, link, stale_log};

use history_thinning::laws::tasks_in_order;

/// Where each task does one operation after the other, every atomic order is coherent.
pub fn atomic_is_coherent<R>()
    ensures { (opening : R) (log : List (Op R)) (order : List ℕ) → TasksTakeTurns log →
        IsAtomicOrder (λ x y. x ≡ y) opening log order → IsCoherentOrder (λ x y. x ≡ y) opening log order }
{
    tasks_in_order::<R>();
}

/// A log with one of the reasons has no coherent order.
pub fn reasons_exclude()
    ensures unwritten { (log : List (Op ℕ)) (read : ℕ) → AreWrittenOnce log → IsUnwritten Equal 0 log read →
        ¬ IsCoherent Equal 0 log }
    ensures ahead { (log : List (Op ℕ)) (read write : ℕ) → AreWrittenOnce log → IsAheadOfWrite Equal 0 log read write →
        ¬ IsCoherent Equal 0 log }
    ensures circle { (log : List (Op ℕ)) (links : List Link) → AreWrittenOnce log → IsCircle Equal 0 log links →
        ¬ IsCoherent Equal 0 log }
{}

/// A read of the opening after another task's write is coherent, though no order of it is atomic.
pub fn stale_is_coherent()
    ensures coherent { IsCoherentOrder Equal 0 stale_log (1 ∷ 0 ∷ []) }
    ensures stale { IsStale Equal 0 stale_log 0 1 }
{}

/// Two tasks that read two records in either order are a circle of two links. A task that reads the opening again is
/// one of one link. And a task may be ahead of its own write.
pub fn instances_are_incoherent()
    ensures crossed { IsCircle Equal 0 crossed_log (link 2 3 ∷ link 4 5 ∷ []) }
    ensures again { IsCircle Equal 0 again_log (link 1 2 ∷ []) }
    ensures ahead { IsAheadOfWrite Equal 0 ahead_log 0 1 }
{}
