//! A turn of each task.
ghost use Rattle.std.specs.Prelude.{◌≡◌, ◌≢◌, ◌≤◌, IfOk};
ghost use Rattle.board_live.specs.Passes.{IsPass};
ghost use Rattle.board_live.specs.Receipts.{IsReceipt};
ghost use Rattle.example_control.specs.Turns.{MakesRead, TakesTurn, command_of, in_order, with_limits, with_reading};
ghost use Rattle.matrix_core.specs.Choices.{IsAtMost};

use crate::control::Control;
use board_live::{Board, Pass, Posted, Receipt, Refused};
use cell_contract::Family;
use matrix_core::Stamp;

/// The limits' task puts new limits beside the reading that it sees.
pub fn set_limits<F: Family<Posted<Control>>>(
    board: &Board<Control, F>,
    pass: &mut Pass<Control, F>,
    low: u64,
    high: u64,
) -> Result<Stamp, Refused<Control>>
    requires pass { IsPass ⟦<F as Family<Posted<Control>>>⟧ in_order board.now pass.old }
    requires limits { low ≤ high }
    ensures pass { IsPass ⟦<F as Family<Posted<Control>>>⟧ in_order board.now pass.new }
    ensures process { pass.new.process ≡ pass.old.process }
    ensures turn { TakesTurn ⟦<F as Family<Posted<Control>>>⟧ board.now
        (with_limits low high) pass.old pass.new result }
{
    let reading = board.read(pass).item.reading;
    board.write(pass, Control { low, reading, high })
}

/// The reading's task puts a new reading within the limits that it sees.
pub fn publish<F: Family<Posted<Control>>>(
    board: &Board<Control, F>,
    pass: &mut Pass<Control, F>,
    reading: u64,
) -> Result<Stamp, Refused<Control>>
    requires { IsPass ⟦<F as Family<Posted<Control>>>⟧ in_order board.now pass.old }
    ensures pass { IsPass ⟦<F as Family<Posted<Control>>>⟧ in_order board.now pass.new }
    ensures process { pass.new.process ≡ pass.old.process }
    ensures turn { TakesTurn ⟦<F as Family<Posted<Control>>>⟧ board.now
        (with_reading reading) pass.old pass.new result }
{
    let Control {
        low,
        reading: _,
        high,
    } = board.read(pass).item;
    board.write(pass, Control { low, reading, high })
}

/// The steering task only reads, and gives the command that follows from its record.
pub fn steer<F: Family<Posted<Control>>>(
    board: &Board<Control, F>,
    pass: &mut Pass<Control, F>,
) -> u64
    requires { IsPass ⟦<F as Family<Posted<Control>>>⟧ in_order board.now pass.old }
    ensures pass { IsPass ⟦<F as Family<Posted<Control>>>⟧ in_order board.now pass.new }
    ensures call { MakesRead ⟦<F as Family<Posted<Control>>>⟧ board.now pass.old pass.new }
    ensures command { result ≡ command_of pass.new.own.item }
    ensures within { (pass.new.own.item.low ≤ result) × (result ≤ pass.new.own.item.high) }
{
    let seen = board.read(pass);
    seen.item.command()
}

/// The reading's task publishes, and gives a receipt for the steering task.
pub fn publish_and_tell<F: Family<Posted<Control>>>(
    board: &Board<Control, F>,
    pass: &mut Pass<Control, F>,
    reading: u64,
) -> Result<Receipt<Control, F>, Refused<Control>>
    requires { IsPass ⟦<F as Family<Posted<Control>>>⟧ in_order board.now pass.old }
    ensures pass { IsPass ⟦<F as Family<Posted<Control>>>⟧ in_order board.now pass.new }
    ensures process { pass.new.process ≡ pass.old.process }
    ensures receipt { IfOk result (λ r. IsReceipt ⟦<F as Family<Posted<Control>>>⟧ board.now r
        × (r.from ≡ pass.old.process)) }
    ensures names { IfOk result (λ r. r.item ≡ pass.new.own) }
{
    publish(board, pass, reading)?;
    Ok(board.tell(pass))
}

/// The steering task takes the receipt in, so that it steers by a record that is no older.
pub fn steer_when_told<F: Family<Posted<Control>>>(
    board: &Board<Control, F>,
    pass: &mut Pass<Control, F>,
    receipt: Receipt<Control, F>,
) -> u64
    requires pass { IsPass ⟦<F as Family<Posted<Control>>>⟧ in_order board.now pass.old }
    requires receipt { IsReceipt ⟦<F as Family<Posted<Control>>>⟧ board.now receipt }
    requires other { receipt.from ≢ pass.old.process }
    ensures pass { IsPass ⟦<F as Family<Posted<Control>>>⟧ in_order board.now pass.new }
    ensures process { pass.new.process ≡ pass.old.process }
    ensures heeds { IsAtMost receipt.item.stamp pass.new.own.stamp }
{
    board.learn(pass, receipt);
    steer(board, pass)
}
