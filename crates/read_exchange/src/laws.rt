//! What follows of what a line says.

ghost use Rattle.std.specs.Prelude.{◌≡◌, ℕ, ◌≤◌, List, Ok, Some};
ghost use Rattle.read_exchange.specs.Exchanges.{entry_of, KeyedExchange, operation};

/// No operation that a line says ended before it began.
pub fn said_operation_runs_forwards()
    ensures { (line : List ℕ) (o : KeyedExchange) (end : ℕ) → entry_of line ≡ Ok (operation o) →
        o.op.ends ≡ Some end → o.op.starts ≤ end }
{}
