//! Boards in turn.
ghost use Rattle.std.specs.Prelude.{IfOk};
ghost use Rattle.board_live.specs.Deals.{OpensWith};
ghost use Rattle.board_live.specs.Ends.{AllPasses};
ghost use Rattle.theorem_uses.specs.Terms.{GoesOn, TermsJoin};

use board_live::{Board, BoardError, Pass, Posted, RecordLaw};
use cell_contract::Family;
use std::alloc::Global;

/// If a board has ended, and the next one opened with the record that it gave, as one of `renew` does, then all calls
/// of both are one history of two terms: atomic by their intervals, where the second board's steps come behind the
/// first one's, and refused lawfully.
pub fn terms_join<V: RecordLaw, F: Family<Posted<V>>>()
    ensures { TermsJoin ⟦<F as Family<Posted<V>>>⟧ }
{}

/// Ends a board and makes the next one, which goes on from its last record: whatever calls were made with the passes,
/// and whatever calls the next board's will be, they are one history of two terms.
pub fn renew_after<V: RecordLaw, F: Family<Posted<V>>>(
    alloc: Global,
    board: Board<V, F>,
    passes: Vec<Pass<V, F>>,
    n: usize,
    limit: u64,
) -> Result<(Board<V, F>, Vec<Pass<V, F>>), BoardError>
    requires { AllPasses ⟦<F as Family<Posted<V>>>⟧ V.obeys board passes.items }
    ensures goes_on { IfOk result (λ r. GoesOn ⟦<F as Family<Posted<V>>>⟧ board passes.items r.0) }
    ensures opens { (last : Posted V) × OpensWith ⟦<F as Family<Posted<V>>>⟧ V.obeys n limit last.item result }
{
    let last = board.finish(passes);
    let made = Board::renew(alloc, n, limit, last)?;
    Ok(made)
}
