//! The family of triple buffers, and its calls.
ghost use Rattle.std.specs.Prelude.{◌≡◌, ◌≢◌, ℕ, ◌≤◌, ◌<◌, List, [], ◌∷◌, IfOk, vec_len, vec_capacity};
ghost use Rattle.history_core.specs.Schedules.{positions};
ghost use Rattle.cell_contract.specs.Ends.{Each, EachTwo, IsSchedule, IsAtomicCell, FindWhatWasSaid};
ghost use Rattle.cell_contract.specs.Plans.{MayRead};
ghost use Rattle.cell_contract.specs.Rows.{IsReadFrom};
ghost use Rattle.family_table.specs.Left.{AreSoFarWith};
ghost use Rattle.family_table.specs.Places.{place};
ghost use Rattle.family_table.specs.declared.notes.View.TheVariants.{Has};
ghost use Rattle.family_triple.specs.Access.{shown_by};
ghost use Rattle.family_triple.specs.Triples.{first_view};
ghost use Rattle.family_table.specs.Seated.{known_by, said_of, found_of};
ghost use Rattle.family_triple.specs.Seated.{IsFirst};
ghost use Rattle.family_table.specs.declared.notes.Process.{Process};
ghost use Rattle.cell_triple.specs.Steps.{TripleSight};
ghost use Rattle.family_table.specs.Seated.{number_of, clock_of, times_of};
ghost use Rattle.family_triple.specs.Seated.{opening_of, processes_of, limit_of, writes_of, reads_of, doings_of};
ghost use Rattle.family_triple.specs.Seated.{IsSeat, SeatShowsAll};
ghost use Rattle.family_table.specs.Seated.{sender_of, time_of};
ghost use Rattle.family_triple.specs.Seated.{named_by, carried_by, IsReceipt, one_is_few, one_step};

use crate::slots::{among, newest, show_where, shows, take_slots, turn_by};
use crate::table::{FamilySeat, FamilyTable, slot_place, words_of_cells};
use cell_contract::{Family, Kept, Planned, Sees, SharedFamily, SoFar};
use cell_triple::TripleSight;
use family_table::left::EndsWithSome;
use family_table::place;
use family_table::processes::{ProcessReceipt, ProcessSeat, gathered, show};
use std::alloc::{AllocError, Global};
use std::marker::Brand;

/// Registers of a triple buffer each, in one table. A write makes one control access, a swap, and a read one or two.
#[derive(Drop)]
pub struct TripleFamily<T: Planned> {
    table: FamilyTable<T>,
}

/// The slot of the register to each process that the next write fills, and of the one from each process
/// the slot of the last answer.
#[derive(Clone, Copy)]
pub struct Slots {
    fills: [u64; 16],
    reads: [u64; 16],
}

/// The right to write and to read as one of the processes. Of each register that it writes it holds a slot, and of each
/// that it reads the slot of its last answer.
pub type TripleSeat<T> = ProcessSeat<T, TripleSight<T>, Slots>;

/// A receipt of a process for all that it has written.
pub type TripleReceipt<T> = ProcessReceipt<T, TripleSight<T>>;

/// A seat for each process, of the one that has them all.
fn seats_of<T: Planned>(
    alloc: Global,
    table: &FamilyTable<T>,
    n: usize,
    first: T,
    rest: FamilySeat<T>,
) -> Result<Vec<TripleSeat<T>>, AllocError>
    requires key { (table.now.rows.inner.shared.key.first ≡ first) × (table.now.rows.inner.shared.key.processes ≡ n) }
    requires own { rest.inner.table_id ≡ table.now.rows.inner.shared.table_id }
    requires all { rest.inner.me ≡ (first_view first n, []) }
    requires few { n ≤ 16 }
    ensures { IfOk result (λ r. (vec_len r ≡ n) × Each (IsFirst table.now.rows.inner.shared.table_id n first) r.items) }
{
    let mut seats = Vec::with_capacity(alloc, n)?;
    let mut rest = rest;
    for who in 0..n {
        let mut seat = table.rows.part(&mut rest);
        take_slots(table, &mut seat, n, who);
        seats.push_reserved(ProcessSeat {
            seat,
            processes: n,
            who,
            stored: Slots {
                fills: [0; 16],
                reads: [2; 16],
            },
            spare: first,
        });
    }
    Ok(seats)
}

impl<T: Planned> TripleFamily<T> {
    /// A read of the register of process `from`, which is this cell. A record that is the last answer again is shown
    /// only if `again` says so: else its slot isn't visited.
    #[inline(always)]
    fn read_at<L: Sees<T>>(
        &self,
        seat: &mut TripleSeat<T>,
        cell: usize,
        from: usize,
        again: bool,
        seen: &mut L,
    )
        requires own { IsSeat self.now seat.old }
        requires other { (from < processes_of self.now) × (from ≢ number_of seat.old) }
        requires at { cell ≡ place seat.old.processes from seat.old.who }
        requires plan { MayRead
            (T.plan (opening_of self.now) 1 (processes_of self.now) (limit_of self.now) (number_of seat.old)) 1 from
            (doings_of seat.old) }
        ensures read { IsReadFrom (IsSeat self.now) number_of clock_of times_of writes_of reads_of said_of found_of 1
            (opening_of self.now) T.fits T.rises (shown_by again L.sees) from
            (seat.old, seen.old) (seat.new, seen.new) }
        ensures so_far { SeatShowsAll T.plan self.now seat.new }
    {
        let table = &self.table;
        let others = seat.processes - 1;
        let before = others + among(seat.who, from);
        turn_by(table, &mut seat.seat, before);
        let (slot, marked) = newest::<T, Brand>(
            table,
            &mut seat.seat,
            cell,
            seat.stored.reads[from],
        );
        seat.stored.reads[from] = slot;
        show_where(
            table,
            &mut seat.seat,
            slot_place(cell, slot),
            shows(again, marked),
            seen,
        );
        turn_by(table, &mut seat.seat, 2 * others - before);
    }
}

impl<T: Planned> Family<T> for TripleFamily<T> {
    type Seat = TripleSeat<T>;

    type Receipt = TripleReceipt<T>;

    ghost opening = { opening_of };

    ghost processes = { processes_of };

    ghost limit = { limit_of };

    ghost width = { 1 };

    ghost some_steps = { one_step };

    ghost few_steps = { one_is_few };

    ghost is_seat = { IsSeat };

    ghost is_receipt = { IsReceipt };

    ghost who = { number_of };

    ghost clock = { clock_of };

    ghost times = { times_of };

    ghost writes = { writes_of };

    ghost reads = { reads_of };

    ghost said = { said_of };

    ghost found = { found_of };

    ghost sender = { sender_of };

    ghost time_of = { time_of };

    ghost named = { named_by };

    ghost writes_of = { carried_by };

    fn make(
        alloc: Global,
        n: usize,
        plan_limit: u64,
        first: T,
    ) -> Result<(Self, Vec<TripleSeat<T>>), AllocError> {
        let (table, rest) = FamilyTable::new(alloc, n, plan_limit, first)?;
        let seats = seats_of(alloc, &table, n, first, rest)?;
        Ok((TripleFamily { table }, seats))
    }

    #[inline]
    fn write_from(&self, seat: &mut TripleSeat<T>, to: usize, item: &T) {
        let table = &self.table;
        let cell = place(seat.processes, seat.who, to);
        let others = seat.processes - 1;
        let before = among(seat.who, to);
        let slot = seat.stored.fills[to];
        turn_by(table, &mut seat.seat, before);
        table
            .rows
            .fill(&mut seat.seat, slot_place(cell, slot), item);
        let middle = table.publish::<Brand>(&mut seat.seat, cell, slot + 4);
        turn_by(table, &mut seat.seat, 2 * others - before);
        seat.stored.fills[to] = middle % 4;
    }

    #[inline(always)]
    fn write_all_from(&self, seat: &mut TripleSeat<T>, item: &T) {
        let processes = seat.processes;
        let who = seat.who;
        for to in 0..who {
            self.write_from(seat, to, item);
        }
        for to in who + 1..processes {
            self.write_from(seat, to, item);
        }
    }

    #[inline]
    fn read_from<L: Sees<T>>(&self, seat: &mut TripleSeat<T>, from: usize, seen: &mut L) {
        let cell = place(seat.processes, from, seat.who);
        self.read_at(seat, cell, from, true, seen);
    }

    #[inline(always)]
    fn read_all_from<L: Sees<T>>(&self, seat: &mut TripleSeat<T>, seen: &mut L) {
        let processes = seat.processes;
        let who = seat.who;
        for from in 0..who {
            self.read_at(seat, place(processes, from, who), from, false, seen);
        }
        for from in who + 1..processes {
            self.read_at(seat, place(processes, from, who), from, false, seen);
        }
    }

    #[inline]
    fn say(&self, seat: &mut TripleSeat<T>, tag: u64) {
        let words = words_of_cells(seat.processes);
        self.table.rows.say(&mut seat.seat, words, seat.who, tag);
    }

    #[inline]
    fn look(&self, seat: &mut TripleSeat<T>, from: usize, tag: u64) -> bool {
        let words = words_of_cells(seat.processes);
        self.table
            .rows
            .look::<Brand, Brand>(&mut seat.seat, words, from, tag)
    }

    fn tell(&self, seat: &mut TripleSeat<T>) -> TripleReceipt<T> {
        let told = self.table.rows.tell(&mut seat.seat);
        ProcessReceipt {
            seat: told,
            processes: seat.processes,
            from: seat.who,
            spare: seat.spare,
        }
    }

    fn duplicate(&self, told: &mut TripleReceipt<T>) -> TripleReceipt<T> {
        let again = self.table.rows.duplicate(&mut told.seat);
        ProcessReceipt {
            seat: again,
            processes: told.processes,
            from: told.from,
            spare: told.spare,
        }
    }

    fn learn(&self, seat: &mut TripleSeat<T>, told: TripleReceipt<T>) {
        let ProcessReceipt {
            seat: receipt,
            processes: _,
            from: _,
            spare: _,
        } = told;
        self.table.rows.hear(&mut seat.seat, receipt);
    }

    fn so_far(&self, seats: &mut Vec<TripleSeat<T>>)
        requires { (vec_len seats.old ≡ processes_of self.now)
            × Each (λ i s. IsSeat self.now s × (number_of s ≡ i)) seats.old.items }
        ensures same { (seats.new.items ≡ seats.old.items) × (vec_capacity seats.new ≡ vec_capacity seats.old) }
        ensures scheduled { (steps : List ℕ) × IsSchedule (processes_of self.now) steps
            × Each (λ i s. times_of s ≡ positions 1 i steps) seats.old.items }
        ensures atomic { EachTwo
            (λ i j s t. IsAtomicCell (opening_of self.now) (writes_of s j) (reads_of t i)) seats.old.items }
        ensures finds { FindWhatWasSaid said_of found_of seats.old.items }
    {
        show(&self.table.rows, seats);
    }

    fn finish(self, seats: Vec<TripleSeat<T>>)
        requires { (vec_len seats ≡ processes_of self) × Each (λ i s. IsSeat self s × (number_of s ≡ i)) seats.items }
        ensures scheduled { (steps : List ℕ) × IsSchedule (processes_of self) steps
            × Each (λ i s. times_of s ≡ positions 1 i steps) seats.items }
        ensures atomic { EachTwo
            (λ i j s t. IsAtomicCell (opening_of self) (writes_of s j) (reads_of t i)) seats.items }
        ensures finds { FindWhatWasSaid said_of found_of seats.items }
    {
        let TripleFamily { table } = self;
        let FamilyTable { rows } = table;
        let seat = gathered(&rows, seats);
        rows.close(seat);
    }
}

impl<T: Planned> SoFar<T> for TripleFamily<T> {
    fn so_far_from(&self, seat: &mut TripleSeat<T>) {
        self.table.rows.all_so_far(&mut seat.seat);
    }
}

impl<T: Planned> EndsWithSome<T> for TripleFamily<T> {
    fn finish_with(self, seats: Vec<TripleSeat<T>>)
        requires some { 0 < vec_len seats }
        requires seats { Each (λ i s. IsSeat self s) seats.items }
        ensures so_far { AreSoFarWith (T.plan (opening_of self) 1 (processes_of self) (limit_of self)) (opening_of self)
            (processes_of self) number_of times_of writes_of reads_of said_of found_of seats.items }
    {
        let TripleFamily { table } = self;
        let FamilyTable { rows } = table;
        let mut seat = gathered(&rows, seats);
        rows.all_so_far(&mut seat);
        rows.close(seat);
    }
}

impl<T: Kept + Planned> SharedFamily<T> for TripleFamily<T> {}
