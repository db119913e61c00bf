//! What follows where bytes stand for a log whose records repeat.

ghost use Rattle.std.specs.Prelude.{◌≡◌, ℕ, ◌≤◌, List, slice_get, Some};
ghost use Rattle.exchanges_log.specs.ExchangeLogs.{IsExchangesLog};
ghost use Rattle.exchanges_log.specs.declared.exchanges_log.ExchangesLog.{ExchangesLog};
ghost use Rattle.object_core.specs.declared.operation.Operation.{Operation};
ghost use Rattle.object_registers.specs.declared.exchanging.Exchange.{Exchange};

use read_exchange::laws::said_operation_runs_forwards;

/// No operation of such a log ended before it began.
pub fn read_log_runs_forwards()
    ensures { (bytes : List ℕ) (read : ExchangesLog) → IsExchangesLog bytes read →
        (p end : ℕ) (o : Operation Exchange) → slice_get read.ops.items p ≡ Some o → o.ends ≡ Some end →
        o.starts ≤ end }
{
    said_operation_runs_forwards();
}
