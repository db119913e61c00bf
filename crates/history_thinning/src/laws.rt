//! Laws over the definitions.

ghost use Rattle.std.specs.Prelude.{ℕ, List};
ghost use Rattle.history_core.specs.declared.history.Op.{Op};
ghost use Rattle.history_core.specs.Orders.{KeepsPrecedence};
ghost use Rattle.history_thinning.specs.Tasks.{KeepsTasks, TasksTakeTurns};

/// Where each task does one operation after the other, every order that keeps precedence, as an atomic one does,
/// keeps each task's own order.
pub fn tasks_in_order<R>()
    ensures { (log : List (Op R)) (order : List ℕ) → TasksTakeTurns log → KeepsPrecedence log order →
        KeepsTasks log order }
{}
