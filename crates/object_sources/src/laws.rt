//! What follows if an operation can't have found its record.

ghost use Rattle.std.specs.Prelude.{ℕ, List};
ghost use Rattle.object_core.specs.declared.operation.Operation.{Operation};
ghost use Rattle.object_core.specs.Logs.{IsLinearizable};
ghost use Rattle.object_registers.specs.Registers.{exchanging_after};
ghost use Rattle.object_sources.specs.Sources.{IsFoundEarly, IsFoundUnwritten};

use object_registers::laws::found_is_made;
use object_registers::{Exchange, Exchanging};

/// If no operation can leave what one found, the log has no lawful order.
pub fn unwritten_is_unlawful()
    ensures { (opening : Exchanging) (log : List (Operation Exchange)) (place : ℕ) →
        IsFoundUnwritten opening.held log place → ¬ IsLinearizable exchanging_after opening log }
{
    found_is_made();
}

/// If each that can leave it began later, the log has no lawful order.
pub fn early_is_unlawful()
    ensures { (opening : Exchanging) (log : List (Operation Exchange)) (place source : ℕ) →
        IsFoundEarly opening.held log place source → ¬ IsLinearizable exchanging_after opening log }
{
    found_is_made();
}
