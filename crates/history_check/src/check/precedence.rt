//! The second rule: of two operations, one that precedes the other stands before it.

ghost use Rattle.std.specs.Prelude.{◌≡◌, ◌<◌, ◌↔◌, IsTrue, IsSomeAnd};
ghost use Rattle.history_check.specs.inner.Ends.{earlier_of};
ghost use Rattle.history_core.specs.Orders.{KeepsPrecedence, ListsPlaces};

use history_core::Op;

/// Whether no later entry precedes an earlier one. It goes backwards, with the least end that it has met.
pub(super) fn keeps_precedence<R>(ops: &[Op<R>], order: &[usize]) -> bool
    requires { ListsPlaces ops.now order.now }
    ensures { IsTrue result ↔ KeepsPrecedence ops.now order.now }
{
    let mut least: Option<u64> = None;
    for i in (0..order.len()).rev() {
        let op = &ops[order[i]];
        if is_before(least, op.starts) {
            return false;
        }
        least = earlier(least, op.ends);
    }
    true
}

fn is_before(end: Option<u64>, starts: u64) -> bool
    ensures { IsTrue result ↔ IsSomeAnd end (λ e. e < starts) }
{
    match end {
        Some(end) => end < starts,
        None => false,
    }
}

fn earlier(a: Option<u64>, b: Option<u64>) -> Option<u64>
    ensures { result ≡ earlier_of a b }
{
    match (a, b) {
        (Some(x), Some(y)) => Some(x.min(y)),
        (Some(x), None) => Some(x),
        (None, end) => end,
    }
}
