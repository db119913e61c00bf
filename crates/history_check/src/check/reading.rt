//! The third rule: each operation that is listed has an item, and a read or refused write has that of the last
//! write before it, or the opening.

ghost use Rattle.std.specs.Prelude.{◌≡◌, ◌↔◌, Some, IsTrue, IfNone, IfSome};
ghost use Rattle.history_core.specs.Orders.{left_by, ListsPlaces, ReadsLatest, ReadsRight};

use history_core::{Kind, Op};

/// Whether each read and refused write has the latest record. It goes forwards, with that record.
pub(super) fn reads_latest<R: Copy + Eq>(opening: R, ops: &[Op<R>], order: &[usize]) -> bool
    requires { ListsPlaces ops.now order.now }
    ensures { IsTrue result ↔ ReadsLatest (λ x y. IsTrue (R.eq x y)) opening ops.now order.now }
{
    let mut latest = opening;
    for place in order {
        match left(latest, &ops[*place]) {
            Some(record) => latest = record,
            None => return false,
        }
    }
    true
}

/// The latest record after an operation, or none where it has no item, or is no write and its item is not the
/// latest before it.
fn left<R: Copy + Eq>(latest: R, op: &Op<R>) -> Option<R>
    ensures right { IfSome result (λ _. ReadsRight (λ x y. IsTrue (R.eq x y)) op.now.kind op.now.item (Some latest)) }
    ensures wrong { IfNone result (¬ ReadsRight (λ x y. IsTrue (R.eq x y)) op.now.kind op.now.item (Some latest)) }
    ensures value { IfSome result (λ r. left_by (Some latest) op.now.kind op.now.item ≡ Some r) }
{
    let item = op.item?;
    match op.kind {
        Kind::Write => Some(item),
        Kind::Read | Kind::Refused => { if item == latest { Some(latest) } else { None } }
    }
}
