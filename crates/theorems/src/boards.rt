//! What a running board promises.
ghost use Rattle.std.specs.Prelude.{IsTrue};
ghost use Rattle.board_live.specs.Ends.{AllPasses};
ghost use Rattle.theorems.specs.Boards.{BoardEndTheorem, BoardTheorem};

use board_live::{Board, Pass, Posted, RecordLaw, Refused};
use cell_contract::Family;
use matrix_core::Stamp;

/// The last process reads and writes the item, whatever was done with the passes before and whatever the others do
/// then. Gives what was read, and the write's answer.
pub fn board_theorem<V: RecordLaw, F: Family<Posted<V>>>(
    board: Board<V, F>,
    passes: Vec<Pass<V, F>>,
    item: V,
) -> (Posted<V>, Result<Stamp, Refused<V>>)
    requires passes { AllPasses ⟦<F as Family<Posted<V>>>⟧ V.obeys board passes.items }
    requires item { IsTrue (V.obeys item) }
    ensures { BoardTheorem ⟦<F as Family<Posted<V>>>⟧ board passes.items item result.0 result.1 }
{
    let mut passes = passes;
    let Some(mut pass) = passes.pop() else {
        unreachable!();
    };
    let seen = board.read(&mut pass);
    let wrote = board.write(&mut pass, item);
    (seen, wrote)
}

/// Shows all calls so far, whatever was done with the passes before, and ends the board. Gives the greatest
/// record at each of the two looks.
pub fn board_end_theorem<V: RecordLaw, F: Family<Posted<V>>>(
    board: Board<V, F>,
    passes: Vec<Pass<V, F>>,
) -> (Posted<V>, Posted<V>)
    requires { AllPasses ⟦<F as Family<Posted<V>>>⟧ V.obeys board passes.items }
    ensures { BoardEndTheorem ⟦<F as Family<Posted<V>>>⟧ board passes.items result.0 result.1 }
{
    let mut passes = passes;
    let shown = board.so_far(&mut passes);
    let last = board.finish(passes);
    (shown, last)
}
