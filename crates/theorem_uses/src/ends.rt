//! A board whose tasks end: what their answers are worth.
ghost use Rattle.std.specs.Prelude.{◌≡◌, [], IfOk, IfSome, IsTrue};
ghost use Rattle.board_live.specs.Records.{Rises};
ghost use Rattle.theorem_uses.specs.Ends.{IsFresh};

use crate::passing::pass_on;
use board_live::{Board, Pass, Posted, RecordLaw};
use cell_contract::Family;
use matrix_core::Stamp;
use std::alloc::{AllocError, Global};

/// With the fresh passes of a board of three processes q writes and tells p, p tells r, r reads, and the board ends:
/// r's answer is q's record, or has a greater stamp. None where the tags have ended.
pub fn ends_no_older<V: RecordLaw, F: Family<Posted<V>>>(
    alloc: Global,
    board: Board<V, F>,
    q: Pass<V, F>,
    p: Pass<V, F>,
    r: Pass<V, F>,
    item: V,
) -> Result<Option<(Stamp, Posted<V>)>, AllocError>
    requires three { board.processes ≡ 3 }
    requires q { IsFresh ⟦<F as Family<Posted<V>>>⟧ V.obeys board 0 q }
    requires p { IsFresh ⟦<F as Family<Posted<V>>>⟧ V.obeys board 1 p }
    requires r { IsFresh ⟦<F as Family<Posted<V>>>⟧ V.obeys board 2 r }
    requires item { IsTrue (V.obeys item) }
    ensures { IfOk result (λ o. IfSome o (λ x. Rises (record { stamp = x.0; item = item }) x.1)) }
{
    let mut q = q;
    let mut p = p;
    let mut r = r;
    let mut passes = Vec::with_capacity(alloc, 3)?;
    let Some((stamp, answer)) = pass_on(&board, &mut q, &mut p, &mut r, item) else {
        return Ok(None);
    };
    passes.push(q)?;
    passes.push(p)?;
    passes.push(r)?;
    board.finish(passes);
    Ok(Some((stamp, answer)))
}

/// With the fresh passes of a board of two processes one writes the item and tells, the other learns and reads, and the
/// board ends: the answer is the very item, whatever the law of the records. None where the tags have ended.
pub fn gives_back<V: RecordLaw, F: Family<Posted<V>>>(
    alloc: Global,
    board: Board<V, F>,
    writer: Pass<V, F>,
    reader: Pass<V, F>,
    item: V,
) -> Result<Option<V>, AllocError>
    requires two { board.processes ≡ 2 }
    requires writer { IsFresh ⟦<F as Family<Posted<V>>>⟧ V.obeys board 0 writer }
    requires reader { IsFresh ⟦<F as Family<Posted<V>>>⟧ V.obeys board 1 reader }
    requires item { IsTrue (V.obeys item) }
    ensures { IfOk result (λ o. IfSome o (λ x. x ≡ item)) }
{
    let mut writer = writer;
    let mut reader = reader;
    let mut passes = Vec::with_capacity(alloc, 2)?;
    let Ok(_) = board.write(&mut writer, item) else {
        return Ok(None);
    };
    let receipt = board.tell(&mut writer);
    board.learn(&mut reader, receipt);
    let answer = board.read(&mut reader);
    passes.push(writer)?;
    passes.push(reader)?;
    board.finish(passes);
    Ok(Some(answer.item))
}
