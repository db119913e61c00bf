//! Tasks over a board, each in a thread of its own.
ghost use Rattle.board_live.specs.Passes.{IsPass};
ghost use Rattle.board_tasks.specs.Lanes.{IsLane};
ghost use Rattle.board_tasks.specs.Jobs.{AllReady, EachStep};
ghost use Rattle.board_tasks.specs.Tasks.{Permitted, Ran};

use crate::gate::Gate;
use crate::jobs::{Job, run_each};
use crate::lane::{Lane, run_lane};
use board_live::{Board, Posted, RecordLaw};
use cell_contract::{Family, SharedFamily};
use std::thread::Threads;

/// A board with the gate of its tasks.
#[derive(Drop)]
struct Runner<'a, V: RecordLaw, F: Family<Posted<V>>, G> {
    board: &'a Board<V, F>,
    gate: &'a G,
}

impl<'a, V: RecordLaw + Send + Sync, F: SharedFamily<Posted<V>>, G: Gate + Sync> Job<Lane<V, F>>
    for Runner<'a, V, F, G>
where
    F::Seat: Send,
{
    ghost ready = { λ s l. IsPass ⟦<F as Family<Posted<V>>>⟧ V.obeys s.board.now l.pass × IsLane V.obeys l };

    ghost ran = { λ s n l m. Ran ⟦<F as Family<Posted<V>>>⟧ V.obeys (Permitted G.is_for s.gate.now)
        (G.may_stop s.gate.now) s.board.now n l m };

    fn run(&self, task: usize, lane: &mut Lane<V, F>) {
        run_lane(self.board, self.gate, task, lane);
    }
}

/// Runs each lane in a thread of its own, of which one may be the caller's.
pub fn run_tasks<
    R: Threads + Sync,
    V: RecordLaw + Send + Sync,
    F: SharedFamily<Posted<V>>,
    G: Gate + Sync,
>(rt: &R, board: &Board<V, F>, lanes: &mut [Lane<V, F>], gate: &G)
where
    F::Seat: Send,
    F::Receipt: Send,
    requires { AllReady (λ l. IsPass ⟦<F as Family<Posted<V>>>⟧ V.obeys board.now l.pass
        × IsLane V.obeys l) 0 lanes.old }
    ensures { EachStep
        (Ran ⟦<F as Family<Posted<V>>>⟧ V.obeys (Permitted G.is_for gate.now) (G.may_stop gate.now) board.now)
        0 lanes.old lanes.new }
{
    run_each(rt, &Runner { board, gate }, 0, lanes);
}
