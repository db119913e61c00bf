//! A range of places, as that of a term, and the writes among them.

ghost use Rattle.std.specs.Prelude.{◌≡◌, ◌+◌, ◌<◌, ◌^◌, IfNone, IfSome};
ghost use Rattle.history_check.specs.Ranges.{is_between, MayRefuse, writes_after};

use history_core::{Kind, Op};

/// Whether a place lies from the first one up to the next one.
pub fn is_within(first: usize, next: usize, place: usize) -> bool
    ensures { result ≡ is_between first next place }
{
    first <= place && place < next
}

/// How many writes there are after an operation; none where it is a write that was refused too early.
pub fn count<R>(within: bool, op: &Op<R>, limit: u64, writes: u64) -> Option<u64>
    requires { writes + 1 < 2 ^ 64 }
    ensures counted { IfSome result (λ n. n ≡ writes_after within op.now.kind writes) }
    ensures lawful { IfSome result (λ _. MayRefuse within op.now.kind limit writes) }
    ensures broken { IfNone result (¬ MayRefuse within op.now.kind limit writes) }
{
    match op.kind {
        Kind::Write if within => Some(writes + 1),
        Kind::Refused if within && writes < limit => None,
        _ => Some(writes),
    }
}
