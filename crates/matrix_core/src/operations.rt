//! What the steps of an operation make of it: it begins, chooses and ends.

ghost use Rattle.std.specs.Prelude.{◌≡◌, IsSome, Some};
ghost use Rattle.matrix_core.specs.inner.Operations.{begun_op, chose, ended};
ghost use Rattle.matrix_core.specs.inner.Plans.{planned};

use crate::progress::Outcome;
use history_core::{Items, Kind, Op, Wish};

/// What the plans say of a process's operation with this number.
pub fn planned<R: Copy>(plans: &[Items<Wish<R>>], who: usize, operation: usize) -> Wish<R>
    requires { IsSome (planned plans.now who operation) }
    ensures { planned plans.now who operation ≡ Some result }
{
    plans[who].as_slice()[operation]
}

/// An operation that begins at the position `now`.
pub fn begun_op<R: Copy>(who: usize, now: u64, wish: Wish<R>) -> Op<R>
    ensures { result ≡ begun_op who now wish }
{
    match wish {
        Wish::Write(item) => Op {
            who,
            kind: Kind::Write,
            starts: now,
            ends: None,
            item: Some(item),
        },
        Wish::Read => Op {
            who,
            kind: Kind::Read,
            starts: now,
            ends: None,
            item: None,
        },
    }
}

/// What its choice makes of an operation: a write that is refused has no item until it ends.
pub fn chose<R: Copy>(outcome: Outcome<R>, op: Op<R>) -> Op<R>
    ensures { result ≡ chose outcome op }
{
    match outcome {
        Outcome::Written(_) | Outcome::Seen(_) => op,
        Outcome::Ended(_) => Op {
            kind: Kind::Refused,
            item: None,
            ..op
        },
    }
}

/// What its last access makes of an operation, at the position `now`.
pub fn ended<R: Copy>(now: u64, outcome: Outcome<R>, op: Op<R>) -> Op<R>
    ensures { result ≡ ended now outcome op }
{
    match outcome {
        Outcome::Written(_) => Op {
            ends: Some(now),
            ..op
        },
        Outcome::Seen(answer) => Op {
            ends: Some(now),
            item: Some(answer.item),
            ..op
        },
        Outcome::Ended(last) => Op {
            ends: Some(now),
            item: Some(last.item),
            ..op
        },
    }
}
