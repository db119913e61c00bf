//! Receipts: what one process tells others.
ghost use Rattle.std.specs.Prelude.{◌≡◌, ◌≤◌, true, false};
ghost use Rattle.board_live.specs.Passes.{IsPass, HasSame};
ghost use Rattle.board_live.specs.Receipts.{HandsOn, HasLearnt, HasTold, IsDuplicate, IsReceipt};

use crate::board::{Board, Pass};
use crate::record::{Posted, RecordLaw};
use cell_contract::Family;

/// A receipt of one process for all that it has done and knows of: whoever learns it reads nothing that is older.
#[derive(Drop)]
pub struct Receipt<V: RecordLaw, F: Family<Posted<V>>> {
    pub(crate) from: usize,
    pub(crate) item: Posted<V>,
    pub(crate) told: F::Receipt,
}

impl<V: RecordLaw, F: Family<Posted<V>>> Board<V, F> {
    /// Gives a receipt for all that the process has done and knows of, to whichever process. It
    /// carries all that this one wrote. If the process's own record wasn't told, a read hands it on first.
    pub fn tell(&self, pass: &mut Pass<V, F>) -> Receipt<V, F>
        requires { IsPass ⟦<F as Family<Posted<V>>>⟧ V.obeys self.now pass.old }
        ensures pass { IsPass ⟦<F as Family<Posted<V>>>⟧ V.obeys self.now pass.new }
        ensures process { pass.new.process ≡ pass.old.process }
        ensures names { IsReceipt ⟦<F as Family<Posted<V>>>⟧ self.now result × (result.from ≡ pass.old.process)
            × (result.item ≡ pass.new.own) }
        ensures later { F.clock pass.old.seat ≤ F.time_of result.told }
        ensures same { pass.old.told ≡ true → HasSame ⟦<F as Family<Posted<V>>>⟧ self.now pass.old pass.new }
        ensures told { pass.old.told ≡ true → HasTold ⟦<F as Family<Posted<V>>>⟧ self.now pass.old pass.new result }
        ensures handed { pass.old.told ≡ false →
            (first : _) × HandsOn ⟦<F as Family<Posted<V>>>⟧ V.obeys self.now pass.old first
            × HasSame ⟦<F as Family<Posted<V>>>⟧ self.now first pass.new
            × HasTold ⟦<F as Family<Posted<V>>>⟧ self.now first pass.new result }
    {
        self.tell_own(pass);
        let told = self.family.tell(&mut pass.seat);
        Receipt {
            from: pass.process,
            item: pass.own,
            told,
        }
    }

    /// Gives a second receipt that tells the same, for one learner more.
    pub fn duplicate(&self, receipt: &mut Receipt<V, F>) -> Receipt<V, F>
        requires { IsReceipt ⟦<F as Family<Posted<V>>>⟧ self.now receipt.old }
        ensures same { receipt.new ≡ receipt.old }
        ensures again { IsDuplicate ⟦<F as Family<Posted<V>>>⟧ self.now receipt.old result }
    {
        let told = self.family.duplicate(&mut receipt.told);
        Receipt {
            from: receipt.from,
            item: receipt.item,
            told,
        }
    }

    /// Takes a receipt in: from now on the calls of this process begin later than all that the sender had done and knew
    /// of, see no record that is older than the one that the receipt names, and know the sender's writes up to it.
    pub fn learn(&self, pass: &mut Pass<V, F>, receipt: Receipt<V, F>)
        requires pass { IsPass ⟦<F as Family<Posted<V>>>⟧ V.obeys self.now pass.old }
        requires receipt { IsReceipt ⟦<F as Family<Posted<V>>>⟧ self.now receipt }
        ensures pass { IsPass ⟦<F as Family<Posted<V>>>⟧ V.obeys self.now pass.new }
        ensures same { HasSame ⟦<F as Family<Posted<V>>>⟧ self.now pass.old pass.new }
        ensures learnt { HasLearnt ⟦<F as Family<Posted<V>>>⟧ pass.old pass.new receipt }
    {
        let Receipt {
            from: _,
            item: _,
            told,
        } = receipt;
        self.family.learn(&mut pass.seat, told);
    }
}
