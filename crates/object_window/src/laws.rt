//! What a window shows of the whole log.

ghost use Rattle.std.specs.Prelude.{ℕ, List};
ghost use Rattle.object_core.specs.declared.operation.Operation.{Operation};
ghost use Rattle.object_core.specs.Logs.{IsLawfulOrder, IsLinearizable};
ghost use Rattle.object_registers.specs.Registers.{exchanging_after};
ghost use Rattle.object_sweep.specs.Rests.{RunForwards};
ghost use Rattle.object_window.specs.Losses.{holding, IsUnasked};
ghost use Rattle.object_window.specs.Windows.{IsLostAnywhere, IsWindow};

use object_registers::{Exchange, Exchanging};

/// A log with a window that is lost, whatever the register held before, has no lawful order from any opening.
pub fn window_is_unlawful()
    ensures { (opening : Exchanging) (log little : List (Operation Exchange)) (first last : ℕ) (places : List ℕ) →
        RunForwards log → IsWindow first last places log little → IsLostAnywhere little →
        ¬ IsLinearizable exchanging_after opening log }
{}

/// From two records that no operation asks for the same orders are lawful.
pub fn unasked_are_alike()
    ensures { (log : List (Operation Exchange)) (one other : ℕ) (order : List ℕ) → IsUnasked log one →
        IsUnasked log other → IsLawfulOrder exchanging_after (holding one) log order →
        IsLawfulOrder exchanging_after (holding other) log order }
{}
