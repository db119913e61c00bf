//! What all calls are together: while the board goes on, and at its end.
ghost use Rattle.std.specs.Prelude.{◌≡◌, ℕ, ◌+◌, ◌≤◌, ◌<◌, List, length, vec_len, vec_capacity, map};
ghost use Rattle.history_core.specs.Schedules.{positions};
ghost use Rattle.cell_contract.specs.Ends.{Each, EachTwo, FindWhatWasSaid, IsSchedule, IsAtomicCell};
ghost use Rattle.board_live.specs.Ends.{AllAtomic, AllPasses, HaveAtomicOrder, IsGreatest, standing};
ghost use Rattle.board_live.specs.inner.Room.{HaveRoom, in_order};

use crate::board::{Board, Pass};
use crate::record::{Posted, RecordLaw};
use cell_contract::Family;

/// The greatest of the own records, of equal stamps that of the smaller process number.
pub(crate) fn greatest_own<V: RecordLaw, F: Family<Posted<V>>>(
    passes: &Vec<Pass<V, F>>,
) -> Posted<V>
    requires { 0 < vec_len passes.now }
    ensures { IsGreatest passes.now.items result }
{
    let mut last = passes[0].own;
    for k in 0..passes.len() {
        last.raise(&passes[k].own);
    }
    last
}

/// The seats of the passes, in their order.
fn seats_of<V: RecordLaw, F: Family<Posted<V>>>(passes: Vec<Pass<V, F>>) -> Vec<F::Seat>
    requires some { 0 < vec_len passes }
    requires room { HaveRoom passes.items }
    ensures { result.items ≡ map (λ p. p.seat) passes.items }
{
    let mut passes = passes;
    let Some(last) = passes.pop() else {
        unreachable!();
    };
    let Pass {
        process: _,
        own: _,
        told: _,
        seat,
        room,
    } = last;
    let mut seats = room;
    seats.push_reserved(seat);
    for _ in 0..passes.len() {
        let Some(pass) = passes.pop() else {
            unreachable!();
        };
        let Pass {
            process: _,
            own: _,
            told: _,
            seat,
            room: _,
        } = pass;
        seats.push_reserved(seat);
    }
    seats.reverse();
    seats
}

/// Shows what was done so far with all seats: those of the passes, and those that were taken
/// out, the last process's first.
fn shown<V: RecordLaw, F: Family<Posted<V>>>(
    family: &F,
    passes: &mut Vec<Pass<V, F>>,
    seats: &mut Vec<F::Seat>,
)
    requires all { length (in_order passes.old.items seats.old.items) ≡ F.Family.processes family.now }
    requires each { Each (λ i s. F.Family.is_seat family.now s × (F.Family.who s ≡ i))
        (in_order passes.old.items seats.old.items) }
    requires room { length passes.old.items + length seats.old.items ≤ vec_capacity seats.old }
    ensures passes { (passes.new.items ≡ passes.old.items) × (vec_capacity passes.new ≡ vec_capacity passes.old) }
    ensures seats { (seats.new.items ≡ seats.old.items) × (vec_capacity seats.new ≡ vec_capacity seats.old) }
    ensures scheduled { (steps : List ℕ) × IsSchedule (F.Family.processes family.now) steps
        × Each (λ i s. F.Family.times s ≡ positions 1 i steps) (in_order passes.old.items seats.old.items) }
    ensures atomic { EachTwo
        (λ i j s t. IsAtomicCell (F.Family.opening family.now) (F.Family.writes s j) (F.Family.reads t i))
        (in_order passes.old.items seats.old.items) }
    ensures finds { FindWhatWasSaid F.Family.said F.Family.found (in_order passes.old.items seats.old.items) }
{
    let Some(pass) = passes.pop() else {
        seats.reverse();
        family.so_far(seats);
        seats.reverse();
        return;
    };
    let Pass {
        process,
        own,
        told,
        seat,
        room,
    } = pass;
    seats.push_reserved(seat);
    shown(family, passes, seats);
    let Some(seat) = seats.pop() else {
        unreachable!();
    };
    passes.push_reserved(Pass {
        process,
        own,
        told,
        seat,
        room,
    });
}

impl<V: RecordLaw, F: Family<Posted<V>>> Board<V, F> {
    /// Shows what all calls so far are together, with all passes lent at once, and goes on: they are atomic by their
    /// intervals. Gives the greatest of the processes' own records.
    pub fn so_far(&self, passes: &mut Vec<Pass<V, F>>) -> Posted<V>
        requires { AllPasses ⟦<F as Family<Posted<V>>>⟧ V.obeys self.now passes.old.items }
        ensures same { map standing passes.new.items ≡ map standing passes.old.items }
        ensures passes { AllPasses ⟦<F as Family<Posted<V>>>⟧ V.obeys self.now passes.new.items }
        ensures last { IsGreatest passes.old.items result }
        ensures registers { AllAtomic ⟦<F as Family<Posted<V>>>⟧ self.now passes.old.items }
        ensures atomic { HaveAtomicOrder ⟦<F as Family<Posted<V>>>⟧ self.now passes.old.items result }
    {
        let last = greatest_own(passes);
        let Some(pass) = passes.pop() else {
            unreachable!();
        };
        let Pass {
            process,
            own,
            told,
            seat,
            room,
        } = pass;
        let mut seats = room;
        seats.push_reserved(seat);
        shown(&self.family, passes, &mut seats);
        let Some(seat) = seats.pop() else {
            unreachable!();
        };
        passes.push_reserved(Pass {
            process,
            own,
            told,
            seat,
            room: seats,
        });
        last
    }

    /// Ends the board: only here do all passes meet. Gives the greatest of the processes' own records. All calls
    /// are atomic by their intervals.
    pub fn finish(self, passes: Vec<Pass<V, F>>) -> Posted<V>
        requires { AllPasses ⟦<F as Family<Posted<V>>>⟧ V.obeys self passes.items }
        ensures last { IsGreatest passes.items result }
        ensures registers { AllAtomic ⟦<F as Family<Posted<V>>>⟧ self passes.items }
        ensures atomic { HaveAtomicOrder ⟦<F as Family<Posted<V>>>⟧ self passes.items result }
    {
        let last = greatest_own(&passes);
        let Board {
            family,
            processes: _,
            limit: _,
            first: _,
        } = self;
        family.finish(seats_of(passes));
        last
    }
}
