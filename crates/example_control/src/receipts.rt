//! A receipt crosses, and the board ends: its calls are atomic by their intervals.
ghost use Rattle.std.specs.Prelude.{◌≡◌, IsTrue, IfOk, IfSome};
ghost use Rattle.example_control.specs.Turns.{HasCrossed, IsFresh};

use board_live::{Board, Pass, Posted, RecordLaw};
use cell_contract::Family;
use std::alloc::{AllocError, Global};

/// With the fresh passes of a board of two processes one writes and tells, the other learns and reads, and
/// the board ends: the read began after the write had ended, and the two calls are atomic by their intervals.
/// None where the tags have ended.
pub fn ends_in_order<V: RecordLaw, F: Family<Posted<V>>>(
    alloc: Global,
    board: Board<V, F>,
    writer: Pass<V, F>,
    reader: Pass<V, F>,
    item: V,
) -> Result<Option<Posted<V>>, AllocError>
    requires two { board.processes ≡ 2 }
    requires writer { IsFresh ⟦<F as Family<Posted<V>>>⟧ V.obeys board 0 writer }
    requires reader { IsFresh ⟦<F as Family<Posted<V>>>⟧ V.obeys board 1 reader }
    requires item { IsTrue (V.obeys item) }
    ensures { IfOk result (λ r. IfSome r (λ last. HasCrossed ⟦<F as Family<Posted<V>>>⟧ board item last)) }
{
    let mut writer = writer;
    let mut reader = reader;
    let mut passes = Vec::with_capacity(alloc, 2)?;
    let Ok(_) = board.write(&mut writer, item) else {
        return Ok(None);
    };
    let receipt = board.tell(&mut writer);
    board.learn(&mut reader, receipt);
    let _seen = board.read(&mut reader);
    passes.push_reserved(writer);
    passes.push_reserved(reader);
    let last = board.finish(passes);
    Ok(Some(last))
}
