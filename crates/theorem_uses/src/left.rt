//! What the log of the only lane that is left is worth.
ghost use Rattle.std.specs.Prelude.{◌≡◌, ◌<◌, [], ◌∷◌, IfSome, Some};
ghost use Rattle.history_core.specs.declared.wish.Wish.TheVariants.{Read, Write};
ghost use Rattle.board_tasks.specs.declared.lane.Reply.TheVariants.{Seen, Written};
ghost use Rattle.board_tasks.specs.Left.{AreAtomicLogsWith};
ghost use Rattle.board_tasks.specs.Tasks.{entry};
ghost use Rattle.theorem_uses.specs.Stale.{IsStaleAfter};

use board_live::{Board, Posted, RecordLaw};
use board_tasks::{Entry, Lane, Reply};
use cell_contract::Family;
use history_core::Wish;
use matrix_core::Stamp;

/// What the entry tells to have been written, if it is of a write.
fn written<V: Copy>(call: &Entry<V>) -> Option<(Stamp, V)>
    ensures write { IfSome result (λ w. call.now ≡ entry (Write w.1) (Written w.0)) }
    ensures each { (stamp item : _) → call.now ≡ entry (Write item) (Written stamp) → result ≡ Some (stamp, item) }
{
    match (call.wish, call.reply) {
        (Wish::Write(item), Reply::Written(stamp)) => Some((stamp, item)),
        _ => None,
    }
}

/// What the entry tells to have been seen, if it is of a read.
fn seen<V: Copy>(call: &Entry<V>) -> Option<Posted<V>>
    ensures read { IfSome result (λ p. call.now ≡ entry Read (Seen p)) }
    ensures each { (posted : _) → call.now ≡ entry Read (Seen posted) → result ≡ Some posted }
{
    match (call.wish, call.reply) {
        (Wish::Read, Reply::Seen(posted)) => Some(posted),
        _ => None,
    }
}

/// Of the only lane that is left, wherever the other tasks were cut off: if its first calls are a write and a read,
/// what was written and what was seen, which isn't stale.
pub fn read_back<V: RecordLaw, F: Family<Posted<V>>>(
    board: &Board<V, F>,
    lane: &Lane<V, F>,
) -> Option<(Stamp, V, Posted<V>)>
    requires logs { AreAtomicLogsWith ⟦<F as Family<Posted<V>>>⟧ board.now (lane.now ∷ []) }
    requires inside { lane.now.pass.process < board.now.processes }
    ensures fresh { IfSome result (λ r. IsStaleAfter r.0 r.1 r.2 → ⊥) }
    ensures each { (stamp item posted more : _) →
        lane.now.log.items ≡ entry (Write item) (Written stamp) ∷ entry Read (Seen posted) ∷ more →
        result ≡ Some (stamp, item, posted) }
{
    let log = lane.log();
    if log.len() < 2 {
        return None;
    }
    let (stamp, item) = written(&log[0])?;
    let posted = seen(&log[1])?;
    Some((stamp, item, posted))
}
