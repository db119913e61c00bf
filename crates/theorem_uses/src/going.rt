//! What a board shows while it goes on.
ghost use Rattle.std.specs.Prelude.{◌≡◌, IfSome, IsTrue};
ghost use Rattle.board_live.specs.Ends.{AllPasses};
ghost use Rattle.board_live.specs.Passes.{IsPass};
ghost use Rattle.theorem_uses.specs.Going.{AnswersTheOpening, ReadsTheOnlyWriteSoFar};
ghost use Rattle.theorem_uses.specs.OnePass.{StandsOnce};

use board_live::{Board, Pass, Posted, RecordLaw};
use cell_contract::{Family, SoFar};
use matrix_core::Stamp;

/// Looks twice at what all calls so far are together. As no call was made between them, both give one record. A read
/// that began after the only write had ended has its record, and of a process that told another one nothing this one
/// has no answer but the opening.
pub fn looked_twice<V: RecordLaw, F: Family<Posted<V>>>(
    board: &Board<V, F>,
    passes: &mut Vec<Pass<V, F>>,
) -> (Posted<V>, Posted<V>)
    requires { AllPasses ⟦<F as Family<Posted<V>>>⟧ V.obeys board.now passes.old.items }
    ensures same { result.0 ≡ result.1 }
    ensures reads { ReadsTheOnlyWriteSoFar ⟦<F as Family<Posted<V>>>⟧ board.now passes.old.items }
    ensures opening { AnswersTheOpening ⟦<F as Family<Posted<V>>>⟧ board.now passes.old.items }
{
    let first = board.so_far(passes);
    let second = board.so_far(passes);
    (first, second)
}

/// Writes the item, and looks with this one pass at what all calls so far are together, wherever the other
/// processes are, also if they were stopped for ever in the middle of a call: the write stands once in their order.
/// None where the tags have ended.
pub fn stands_whoever_stops<V: RecordLaw, F: SoFar<Posted<V>>>(
    board: &Board<V, F>,
    pass: &mut Pass<V, F>,
    item: V,
) -> Option<Stamp>
    requires pass { IsPass ⟦<F as Family<Posted<V>>>⟧ V.obeys board.now pass.old }
    requires item { IsTrue (V.obeys item) }
    ensures { IfSome result (λ s. StandsOnce ⟦<F as Family<Posted<V>>>⟧ board.now pass.new s item) }
{
    let Ok(stamp) = board.write(pass, item) else {
        return None;
    };
    board.so_far_with(pass);
    Some(stamp)
}

/// Writes the item, wherever the other processes are, also if they were stopped for ever in the middle of a call: once
/// the write has returned it stands in the order of all calls so far. None where the tags have ended.
pub fn stands_at_once<V: RecordLaw, F: Family<Posted<V>>>(
    board: &Board<V, F>,
    pass: &mut Pass<V, F>,
    item: V,
) -> Option<Stamp>
    requires pass { IsPass ⟦<F as Family<Posted<V>>>⟧ V.obeys board.now pass.old }
    requires item { IsTrue (V.obeys item) }
    ensures { IfSome result (λ s. StandsOnce ⟦<F as Family<Posted<V>>>⟧ board.now pass.new s item) }
{
    let Ok(given) = board.write(pass, item) else {
        return None;
    };
    Some(given)
}
