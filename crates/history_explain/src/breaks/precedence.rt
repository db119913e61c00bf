//! What breaks the second rule: an operation that precedes one before it.

ghost use Rattle.std.specs.Prelude.{◌≡◌, ◌<◌, ◌↔◌, IfNone, IfSome, IsSomeAnd, IsTrue};
ghost use Rattle.history_explain.specs.Breaks.{IsOvertaken};
ghost use Rattle.history_core.specs.Orders.{KeepsPrecedence, ListsPlaces};
ghost use Rattle.history_explain.specs.inner.Searches.{later_of};

use history_core::Op;

/// An entry, with the beginning of its operation.
#[derive(Clone, Copy)]
pub(super) struct Begun {
    pub(super) entry: usize,
    pub(super) starts: u64,
}

/// The first entry that precedes one before it, and of those before it the one that began last. It goes forwards, with
/// the latest beginning that it has met.
pub(super) fn overtaken<R>(ops: &[Op<R>], order: &[usize]) -> Option<(usize, usize)>
    requires { ListsPlaces ops.now order.now }
    ensures none { IfNone result (KeepsPrecedence ops.now order.now) }
    ensures some { IfSome result (λ r. IsOvertaken ops.now order.now r.0 r.1) }
{
    let mut last = Begun {
        entry: 0,
        starts: 0,
    };
    for (entry, place) in order.iter().enumerate() {
        let op = &ops[*place];
        if is_before(op.ends, last.starts) {
            return Some((last.entry, entry));
        }
        last = later(
            last,
            Begun {
                entry,
                starts: op.starts,
            },
        );
    }
    None
}

fn is_before(end: Option<u64>, starts: u64) -> bool
    ensures { IsTrue result ↔ IsSomeAnd end (λ e. e < starts) }
{
    match end {
        Some(end) => end < starts,
        None => false,
    }
}

/// The one that began later; the first where both began at once.
fn later(a: Begun, b: Begun) -> Begun
    ensures { result ≡ later_of a b }
{
    if a.starts < b.starts { b } else { a }
}
