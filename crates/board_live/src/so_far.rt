//! What all calls so far are together, shown by one pass while the other processes go on.
ghost use Rattle.std.specs.Prelude.{◌≡◌};
ghost use Rattle.board_live.specs.Passes.{IsPass};
ghost use Rattle.board_live.specs.SoFar.{HaveAtomicOrderSoFar};

use crate::board::{Board, Pass};
use crate::record::{Posted, RecordLaw};
use cell_contract::{Family, SoFar};

impl<V: RecordLaw, F: SoFar<Posted<V>>> Board<V, F> {
    /// Shows by one pass what all calls so far are together, while the other processes go on, also where some of them
    /// were stopped for ever in the middle of a call: they have an order that is atomic by their intervals and refuses
    /// lawfully. Nothing changes.
    pub fn so_far_with(&self, pass: &mut Pass<V, F>)
        requires { IsPass ⟦<F as Family<Posted<V>>>⟧ V.obeys self.now pass.old }
        ensures same { pass.new ≡ pass.old }
        ensures atomic { HaveAtomicOrderSoFar ⟦<F as Family<Posted<V>>>⟧ self.now pass.old }
    {
        self.family.so_far_from(&mut pass.seat);
    }
}
