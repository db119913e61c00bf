//! What breaks the third rule: an operation without an item, or with another item than the last write before it.

ghost use Rattle.std.specs.Prelude.{◌≡◌, IfErr, IfNone, IfOk, IfSome, IsTrue, Some};
ghost use Rattle.history_explain.specs.Breaks.{IsReadingBreak};
ghost use Rattle.history_core.specs.Orders.{left_by, ListsPlaces, ReadsLatest, ReadsRight};
ghost use Rattle.history_explain.specs.inner.Searches.{IsWrongAt, write_after};

use super::Break;
use history_core::{Kind, Op};

/// The latest record, and the entry of the write that wrote it.
#[derive(Clone, Copy)]
pub(super) struct Held<R> {
    pub(super) latest: R,
    pub(super) write: Option<usize>,
}

/// The first entry that breaks reading. It goes forwards, with the latest record and its write.
pub(super) fn reading_break<R: Copy + Eq>(
    opening: R,
    ops: &[Op<R>],
    order: &[usize],
) -> Option<Break>
    requires { ListsPlaces ops.now order.now }
    ensures none { IfNone result (ReadsLatest (λ x y. IsTrue (R.eq x y)) opening ops.now order.now) }
    ensures some { IfSome result (IsReadingBreak (λ x y. IsTrue (R.eq x y)) opening ops.now order.now) }
{
    let mut held = Held {
        latest: opening,
        write: None,
    };
    for (entry, place) in order.iter().enumerate() {
        match after(held, entry, &ops[*place]) {
            Ok(next) => held = next,
            Err(found) => return Some(found),
        }
    }
    None
}

/// What is held after an operation, or how it breaks reading.
fn after<R: Copy + Eq>(held: Held<R>, entry: usize, op: &Op<R>) -> Result<Held<R>, Break>
    ensures right { IfOk result
        (λ _. ReadsRight (λ x y. IsTrue (R.eq x y)) op.now.kind op.now.item (Some held.latest)) }
    ensures latest { IfOk result (λ h. left_by (Some held.latest) op.now.kind op.now.item ≡ Some h.latest) }
    ensures write { IfOk result (λ h. h.write ≡ write_after op.now.kind entry held.write) }
    ensures wrong { IfErr result
        (IsWrongAt (λ x y. IsTrue (R.eq x y)) held.latest held.write entry op.now.kind op.now.item) }
{
    let Some(item) = op.item else {
        return Err(Break::NoItem { entry });
    };
    match op.kind {
        Kind::Write => Ok(Held {
            latest: item,
            write: Some(entry),
        }),
        Kind::Read | Kind::Refused => {
            if item == held.latest {
                Ok(held)
            } else {
                let write = held.write;
                Err(Break::Reading { entry, write })
            }
        }
    }
}
