//! Laws over the definitions.

ghost use Rattle.std.specs.Prelude.{◌↔◌, ℕ, List};
ghost use Rattle.history_core.specs.declared.history.Op.{Op};
ghost use Rattle.history_core.specs.Orders.{KeepsPrecedence};
ghost use Rattle.history_explain.specs.Points.{AreForwards, HasPoints};

/// An order keeps precedence, and its operations run forwards, exactly where there are points that never fall along it,
/// each from its operation's beginning to its end.
pub fn precedence_by_points<R>()
    ensures { (ops : List (Op R)) (order : List ℕ) →
        HasPoints ops order ↔ (KeepsPrecedence ops order × AreForwards ops order) }
{}
