//! The tasks call in turn, with the passes of a board of three.
ghost use Rattle.std.specs.Prelude.{◌≡◌, IfOk, length};
ghost use Rattle.board_live.specs.Ends.{AllPasses};
ghost use Rattle.board_live.specs.Receipts.{IsReceipt};
ghost use Rattle.example_control.specs.Turns.{in_order};

use crate::calls::{publish, publish_and_tell, set_limits, steer_when_told};
use crate::control::Control;
use board_live::{Board, Pass, Posted, Receipt, Refused};
use cell_contract::Family;
use matrix_core::Stamp;

const LIMITS: usize = 0;

const READING: usize = 1;

/// The place of the pass that steers.
pub const STEERING: usize = 2;

/// The limits' task has its turn.
fn set_limits_by<F: Family<Posted<Control>>>(
    board: &Board<Control, F>,
    passes: &mut Vec<Pass<Control, F>>,
) -> Result<Stamp, Refused<Control>>
    requires all { AllPasses ⟦<F as Family<Posted<Control>>>⟧ in_order board.now passes.old.items }
    requires three { length passes.old.items ≡ 3 }
    ensures { AllPasses ⟦<F as Family<Posted<Control>>>⟧ in_order board.now passes.new.items
        × (length passes.new.items ≡ 3) }
{
    set_limits(board, &mut passes[LIMITS], 10, 20)
}

/// The reading's task has its turn.
fn publish_by<F: Family<Posted<Control>>>(
    board: &Board<Control, F>,
    passes: &mut Vec<Pass<Control, F>>,
) -> Result<Receipt<Control, F>, Refused<Control>>
    requires all { AllPasses ⟦<F as Family<Posted<Control>>>⟧ in_order board.now passes.old.items }
    requires three { length passes.old.items ≡ 3 }
    ensures all { AllPasses ⟦<F as Family<Posted<Control>>>⟧ in_order board.now passes.new.items
        × (length passes.new.items ≡ 3) }
    ensures receipt { IfOk result (λ r. IsReceipt ⟦<F as Family<Posted<Control>>>⟧ board.now r × (r.from ≡ 1)) }
{
    publish_and_tell(board, &mut passes[READING], 25)
}

/// The steering task has its turn.
fn steer_by<F: Family<Posted<Control>>>(
    board: &Board<Control, F>,
    passes: &mut Vec<Pass<Control, F>>,
    receipt: Receipt<Control, F>,
) -> u64
    requires all { AllPasses ⟦<F as Family<Posted<Control>>>⟧ in_order board.now passes.old.items }
    requires three { length passes.old.items ≡ 3 }
    requires receipt { IsReceipt ⟦<F as Family<Posted<Control>>>⟧ board.now receipt × (receipt.from ≡ 1) }
    ensures { AllPasses ⟦<F as Family<Posted<Control>>>⟧ in_order board.now passes.new.items
        × (length passes.new.items ≡ 3) }
{
    steer_when_told(board, &mut passes[STEERING], receipt)
}

/// Each task calls in turn.
pub fn share<F: Family<Posted<Control>>>(
    board: &Board<Control, F>,
    passes: &mut Vec<Pass<Control, F>>,
) -> Result<u64, Refused<Control>>
    requires all { AllPasses ⟦<F as Family<Posted<Control>>>⟧ in_order board.now passes.old.items }
    requires three { length passes.old.items ≡ 3 }
    ensures { IfOk result (λ _. AllPasses ⟦<F as Family<Posted<Control>>>⟧ in_order board.now passes.new.items
        × (length passes.new.items ≡ 3)) }
{
    set_limits_by(board, passes)?;
    let receipt = publish_by(board, passes)?;
    Ok(steer_by(board, passes, receipt))
}

/// One reading more, which is refused where the tags have ended.
pub fn is_refused<F: Family<Posted<Control>>>(
    board: &Board<Control, F>,
    passes: &mut Vec<Pass<Control, F>>,
) -> bool
    requires all { AllPasses ⟦<F as Family<Posted<Control>>>⟧ in_order board.now passes.old.items }
    requires three { length passes.old.items ≡ 3 }
    ensures { AllPasses ⟦<F as Family<Posted<Control>>>⟧ in_order board.now passes.new.items }
{
    publish(board, &mut passes[READING], 15).is_err()
}
