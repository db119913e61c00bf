//! A board with the passes of all its processes.
ghost use Rattle.std.specs.Prelude.{IfOk};
ghost use Rattle.history_core.specs.Band.{fits};
ghost use Rattle.board_live.specs.Ends.{AllPasses};

use board_live::{Board, BoardError, Pass, Posted, RecordLaw, Refused};
use cell_contract::Family;
use history_core::Band;
use matrix_core::Stamp;
use std::alloc::Global;

pub const OPENING: Band = Band {
    lo: 0,
    now: 0,
    hi: 0,
};

pub const A: Band = Band {
    lo: 1,
    now: 1,
    hi: 1,
};

pub const B: Band = Band {
    lo: 2,
    now: 2,
    hi: 2,
};

/// What a call of a team gave.
#[derive(Clone, Copy, Debug, PartialEq, Eq)]
pub enum Given {
    /// There is no such process, or the item breaks its law.
    Nothing,
    Stamp(Stamp),
    Ended(Posted<Band>),
    Posted(Posted<Band>),
}

impl Given {
    /// Whether it is the stamp of a write.
    pub fn is_stamp(self) -> bool {
        match self {
            Given::Stamp(_) => true,
            Given::Nothing | Given::Ended(_) | Given::Posted(_) => false,
        }
    }

    /// The record that a call gave as its answer.
    pub fn posted(self) -> Option<Posted<Band>> {
        match self {
            Given::Posted(posted) => Some(posted),
            Given::Nothing | Given::Stamp(_) | Given::Ended(_) => None,
        }
    }
}

/// A board with the passes of all its processes in one hand. Each call of a process is as the board's.
#[derive(Drop)]
pub struct Team<F: Family<Posted<Band>>> {
    board: Board<Band, F>,
    passes: Vec<Pass<Band, F>>,
}

impl<F: Family<Posted<Band>>> Team<F> {
    pub fn new(alloc: Global, n: usize, limit: u64, opening: Band) -> Result<Team<F>, BoardError>
        ensures { IfOk result (λ t. AllPasses ⟦<F as Family<Posted<Band>>>⟧ fits t.board t.passes.items) }
    {
        let (board, passes) = Board::new(alloc, n, limit, opening)?;
        Ok(Team { board, passes })
    }

    /// The number of its passes.
    pub fn len(&self) -> usize {
        self.passes.len()
    }

    pub fn renew(
        alloc: Global,
        n: usize,
        limit: u64,
        last: Posted<Band>,
    ) -> Result<Team<F>, BoardError>
        ensures { IfOk result (λ t. AllPasses ⟦<F as Family<Posted<Band>>>⟧ fits t.board t.passes.items) }
    {
        let (board, passes) = Board::renew(alloc, n, limit, last)?;
        Ok(Team { board, passes })
    }

    pub fn write(&mut self, who: usize, item: Band) -> Given
        requires { AllPasses ⟦<F as Family<Posted<Band>>>⟧ fits self.old.board self.old.passes.items }
        ensures { AllPasses ⟦<F as Family<Posted<Band>>>⟧ fits self.new.board self.new.passes.items }
    {
        if who >= self.passes.len() || !item.fits() {
            return Given::Nothing;
        }
        match self.board.write(&mut self.passes[who], item) {
            Ok(stamp) => Given::Stamp(stamp),
            Err(Refused { seen }) => Given::Ended(seen),
        }
    }

    pub fn read(&mut self, who: usize) -> Given
        requires { AllPasses ⟦<F as Family<Posted<Band>>>⟧ fits self.old.board self.old.passes.items }
        ensures { AllPasses ⟦<F as Family<Posted<Band>>>⟧ fits self.new.board self.new.passes.items }
    {
        if who >= self.passes.len() {
            return Given::Nothing;
        }
        Given::Posted(self.board.read(&mut self.passes[who]))
    }

    /// One process tells, and another learns it. Gives the record that the receipt names.
    pub fn pass_on(&mut self, from: usize, to: usize) -> Given
        requires { AllPasses ⟦<F as Family<Posted<Band>>>⟧ fits self.old.board self.old.passes.items }
        ensures { AllPasses ⟦<F as Family<Posted<Band>>>⟧ fits self.new.board self.new.passes.items }
    {
        if from >= self.passes.len() {
            return Given::Nothing;
        }
        if to >= self.passes.len() {
            return Given::Nothing;
        }
        let receipt = self.board.tell(&mut self.passes[from]);
        let told = receipt.told();
        self.board.learn(&mut self.passes[to], receipt);
        Given::Posted(told)
    }

    pub fn finish(self) -> Posted<Band>
        requires { AllPasses ⟦<F as Family<Posted<Band>>>⟧ fits self.board self.passes.items }
    {
        let Team { board, passes } = self;
        board.finish(passes)
    }
}
