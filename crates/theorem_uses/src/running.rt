//! A board that goes on: what one call takes, and what an answer after a receipt is worth.
ghost use Rattle.std.specs.Prelude.{◌≡◌, ◌+◌, ◌≤◌, IfSome, IsTrue, length};
ghost use Rattle.cell_contract.specs.Intervals.{IsNoOlder};
ghost use Rattle.cell_contract.specs.Running.{last_or};
ghost use Rattle.matrix_core.specs.Stamps.{first_stamp};
ghost use Rattle.board_live.specs.Passes.{IsPass};

use board_live::{Board, Pass, Posted, RecordLaw};
use cell_contract::Family;

/// A write and a read on a board of four processes take at most 36 steps. Gives whether the tags
/// had not ended, and the answer.
pub fn turn_of_four<V: RecordLaw, F: Family<Posted<V>>>(
    board: &Board<V, F>,
    pass: &mut Pass<V, F>,
    item: V,
) -> (bool, Posted<V>)
    requires four { board.now.processes ≡ 4 }
    requires pass { IsPass ⟦<F as Family<Posted<V>>>⟧ V.obeys board.now pass.old }
    requires item { IsTrue (V.obeys item) }
    ensures within { length (F.times pass.new.seat) ≤ length (F.times pass.old.seat) + 36 }
{
    let written = board.write(pass, item).is_ok();
    let seen = board.read(pass);
    (written, seen)
}

/// On a board of two processes one writes and tells, and the other, which has seen nothing yet, learns and reads: the
/// answer is one of the writes that begin with all that were really made with the writer's pass, and no older than the
/// last of these, which is the item's. None if the tags have ended.
pub fn answers_written<V: RecordLaw, F: Family<Posted<V>>>(
    board: &Board<V, F>,
    writer: &mut Pass<V, F>,
    reader: &mut Pass<V, F>,
    item: V,
) -> Option<Posted<V>>
    requires two { board.now.processes ≡ 2 }
    requires writer { IsPass ⟦<F as Family<Posted<V>>>⟧ V.obeys board.now writer.old × (writer.old.process ≡ 0) }
    requires reader { IsPass ⟦<F as Family<Posted<V>>>⟧ V.obeys board.now reader.old × (reader.old.process ≡ 1) }
    requires unread { reader.old.own.stamp ≡ first_stamp }
    requires item { IsTrue (V.obeys item) }
    ensures last { IfSome result (λ x. (last_or board.now.first (F.writes writer.new.seat 1).items).item ≡ item) }
    ensures written { IfSome result (λ x. IsNoOlder board.now.first (F.writes writer.new.seat 1).items x) }
{
    let Ok(_) = board.write(writer, item) else {
        return None;
    };
    let receipt = board.tell(writer);
    board.learn(reader, receipt);
    let answer = board.read(reader);
    Some(answer)
}
