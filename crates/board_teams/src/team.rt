//! Boards in one thread, with the passes of all processes in one hand.
ghost use Rattle.std.specs.Prelude.{IfOk};
ghost use Rattle.history_core.specs.Band.{fits};
ghost use Rattle.board_live.specs.Ends.{AllPasses};

use board_live::{Board, BoardError, Pass, Posted, RecordLaw, Refused};
use cell_contract::Family;
use history_core::Band;
use matrix_core::Stamp;
use std::alloc::Global;

/// A call of a process, which is named by its number.
#[derive(Clone, Copy)]
pub enum Step {
    Write(usize, Band),
    Read(usize),
    /// The process is asked for its own record.
    Own(usize),
    /// The first process tells, and the second learns it. Gives the record that the receipt names.
    PassOn(usize, usize),
    /// The process tells, and the receipt is lost.
    DropReceipt(usize),
}

/// What a step of a team gave.
#[derive(Clone, Copy, Debug, PartialEq, Eq)]
pub enum Given {
    /// There is no such process, or the item breaks its law.
    Nothing,
    Stamp(Stamp),
    Ended(Posted<Band>),
    Posted(Posted<Band>),
}

/// A board with the passes of all its processes.
#[derive(Drop)]
pub struct Team<F: Family<Posted<Band>>> {
    pub board: Board<Band, F>,
    pub passes: Vec<Pass<Band, F>>,
}

impl<F: Family<Posted<Band>>> Team<F> {
    pub fn new(alloc: Global, n: usize, limit: u64, opening: Band) -> Result<Team<F>, BoardError>
        ensures { IfOk result (λ t. AllPasses ⟦<F as Family<Posted<Band>>>⟧ fits t.board t.passes.items) }
    {
        let (board, passes) = Board::new(alloc, n, limit, opening)?;
        Ok(Team { board, passes })
    }

    pub fn renew(
        alloc: Global,
        n: usize,
        limit: u64,
        last: Posted<Band>,
    ) -> Result<Team<F>, BoardError>
        ensures { IfOk result (λ t. AllPasses ⟦<F as Family<Posted<Band>>>⟧ fits t.board t.passes.items) }
    {
        let (board, passes) = Board::renew(alloc, n, limit, last)?;
        Ok(Team { board, passes })
    }

    /// Each step is a call of the board with the pass of its process.
    pub fn answer(&mut self, step: Step) -> Given
        requires { AllPasses ⟦<F as Family<Posted<Band>>>⟧ fits self.old.board self.old.passes.items }
        ensures { AllPasses ⟦<F as Family<Posted<Band>>>⟧ fits self.new.board self.new.passes.items }
    {
        match step {
            Step::Write(who, item) => self.write(who, item),
            Step::Read(who) => self.read(who),
            Step::Own(who) => self.own(who),
            Step::PassOn(from, to) => self.pass_on(from, to),
            Step::DropReceipt(from) => self.drop_receipt(from),
        }
    }

    fn write(&mut self, who: usize, item: Band) -> Given
        requires { AllPasses ⟦<F as Family<Posted<Band>>>⟧ fits self.old.board self.old.passes.items }
        ensures { AllPasses ⟦<F as Family<Posted<Band>>>⟧ fits self.new.board self.new.passes.items }
    {
        if who >= self.passes.len() || !item.fits() {
            return Given::Nothing;
        }
        match self.board.write(&mut self.passes[who], item) {
            Ok(stamp) => Given::Stamp(stamp),
            Err(Refused { seen }) => Given::Ended(seen),
        }
    }

    fn read(&mut self, who: usize) -> Given
        requires { AllPasses ⟦<F as Family<Posted<Band>>>⟧ fits self.old.board self.old.passes.items }
        ensures { AllPasses ⟦<F as Family<Posted<Band>>>⟧ fits self.new.board self.new.passes.items }
    {
        if who >= self.passes.len() {
            return Given::Nothing;
        }
        Given::Posted(self.board.read(&mut self.passes[who]))
    }

    fn own(&self, who: usize) -> Given {
        match self.passes.get(who) {
            Some(pass) => Given::Posted(pass.own()),
            None => Given::Nothing,
        }
    }

    fn pass_on(&mut self, from: usize, to: usize) -> Given
        requires { AllPasses ⟦<F as Family<Posted<Band>>>⟧ fits self.old.board self.old.passes.items }
        ensures { AllPasses ⟦<F as Family<Posted<Band>>>⟧ fits self.new.board self.new.passes.items }
    {
        if from >= self.passes.len() {
            return Given::Nothing;
        }
        if to >= self.passes.len() {
            return Given::Nothing;
        }
        let receipt = self.board.tell(&mut self.passes[from]);
        let told = receipt.told();
        self.board.learn(&mut self.passes[to], receipt);
        Given::Posted(told)
    }

    fn drop_receipt(&mut self, from: usize) -> Given
        requires { AllPasses ⟦<F as Family<Posted<Band>>>⟧ fits self.old.board self.old.passes.items }
        ensures { AllPasses ⟦<F as Family<Posted<Band>>>⟧ fits self.new.board self.new.passes.items }
    {
        if from >= self.passes.len() {
            return Given::Nothing;
        }
        let receipt = self.board.tell(&mut self.passes[from]);
        Given::Posted(receipt.told())
    }

    /// The greatest own record so far.
    pub fn so_far(&mut self) -> Posted<Band>
        requires { AllPasses ⟦<F as Family<Posted<Band>>>⟧ fits self.old.board self.old.passes.items }
        ensures { AllPasses ⟦<F as Family<Posted<Band>>>⟧ fits self.new.board self.new.passes.items }
    {
        self.board.so_far(&mut self.passes)
    }

    pub fn finish(self) -> Posted<Band>
        requires { AllPasses ⟦<F as Family<Posted<Band>>>⟧ fits self.board self.passes.items }
    {
        let Team { board, passes } = self;
        board.finish(passes)
    }
}
