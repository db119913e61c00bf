//! How many operations are unfinished, and of how many it isn't known what they did.
ghost use Rattle.std.specs.Prelude.{◌≡◌};
ghost use Rattle.exchanges_log.specs.ExchangeLogs.{is_uncertain, uncertain_in, unfinished_in};

use object_core::Operation;
use object_registers::Exchange;

pub(crate) fn unfinished_in(ops: &[Operation<Exchange>]) -> usize
    ensures { result ≡ unfinished_in ops.now }
{
    ops.iter().filter(|o| o.ends.is_none()).count()
}

pub(crate) fn uncertain_in(ops: &[Operation<Exchange>]) -> usize
    ensures { result ≡ uncertain_in ops.now }
{
    ops.iter().filter(|o| is_uncertain(o)).count()
}

fn is_uncertain(op: &Operation<Exchange>) -> bool
    ensures { result ≡ is_uncertain op.now }
{
    op.ends.is_some() && op.maybe
}
