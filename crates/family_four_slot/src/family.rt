//! The family of four-slot cells, and its calls.
ghost use Rattle.std.specs.Prelude.{◌≡◌, ◌≢◌, ◌||◌, ℕ, ◌<◌, List, [], ◌∷◌, IfOk, vec_len, vec_capacity};
ghost use Rattle.history_core.specs.Schedules.{positions};
ghost use Rattle.cell_contract.specs.Running.{last_or};
ghost use Rattle.cell_contract.specs.Ends.{Each, EachTwo, IsSchedule, IsAtomicCell, FindWhatWasSaid};
ghost use Rattle.cell_contract.specs.Plans.{MayRead, MayWrite};
ghost use Rattle.cell_contract.specs.Rows.{IsReadFrom, IsWriteTo};
ghost use Rattle.family_table.specs.Left.{AreSoFarWith};
ghost use Rattle.family_table.specs.Places.{place};
ghost use Rattle.family_four_slot.specs.Access.{shown_by};
ghost use Rattle.family_four_slot.specs.FourSlots.{first_view};
ghost use Rattle.family_table.specs.declared.notes.View.TheVariants.{Has};
ghost use Rattle.family_table.specs.Seated.{known_by, said_of, found_of};
ghost use Rattle.family_four_slot.specs.Seated.{IsFirst};
ghost use Rattle.family_table.specs.declared.notes.Process.{Process};
ghost use Rattle.cell_four_slot.specs.Steps.{FourSlotSight};
ghost use Rattle.family_table.specs.Seated.{number_of, clock_of, times_of};
ghost use Rattle.family_four_slot.specs.Seated.{opening_of, processes_of, limit_of, writes_of};
ghost use Rattle.family_four_slot.specs.Seated.{reads_of, IsSeat, SeatShowsAll, doings_of};
ghost use Rattle.family_table.specs.Seated.{sender_of, time_of};
ghost use Rattle.family_four_slot.specs.Seated.{named_by, carried_by, IsReceipt, three_are_few, three_steps};

use crate::table::{FamilySeat, FamilyTable, words_of_cells};
use cell_contract::{Family, Kept, Planned, Sees, SharedFamily, SoFar};
use cell_four_slot::{FourSlotSight, bit_of, other_bit, set_bit, slot_of};
use family_table::left::EndsWithSome;
use family_table::place;
use family_table::processes::{ProcessReceipt, ProcessSeat, gathered, show};
use std::alloc::{AllocError, Global};
use std::marker::Brand;
use std::snapshot::Snapshot;

/// Registers of four slots each, in one table. Each write and each read makes three steps of the
/// mechanism, by three control accesses or by two, plain loads and stores: the store of a pair is left out
/// where its word has that pair already.
#[derive(Drop)]
pub struct FourSlotFamily<T: Planned> {
    table: FamilyTable<T>,
}

/// What a process stored last in the words of a register that it writes: the pairs' bits and the pair in `latest`. They
/// lie side by side, so that a row has one running place for both.
#[derive(Clone, Copy)]
pub struct Shown {
    bits: [u64; 2],
    latest: u64,
}

/// What a process remembers of its registers, by the other process: of those that it writes what it stored last, and of
/// those that it reads the number of the slot of its last answer, 4 before the first.
#[derive(Clone, Copy)]
pub struct Stored {
    shown: [Shown; 16],
    reads: [usize; 16],
}

/// The right to write and to read as one of the processes. Of each register from which it has read it holds
/// the slot of its last answer.
pub type FourSlotSeat<T> = ProcessSeat<T, FourSlotSight<T>, Stored>;

/// A receipt of a process for all that it has written.
pub type FourSlotReceipt<T> = ProcessReceipt<T, FourSlotSight<T>>;

/// A seat for each process, of the one that has them all.
fn seats_of<T: Planned>(
    alloc: Global,
    table: &FamilyTable<T>,
    n: usize,
    first: T,
    rest: FamilySeat<T>,
) -> Result<Vec<FourSlotSeat<T>>, AllocError>
    requires own { rest.inner.table_id ≡ table.now.rows.inner.shared.table_id }
    requires all { rest.inner.me ≡ (first_view first n, []) }
    ensures { IfOk result (λ r. (vec_len r ≡ n) × Each (IsFirst table.now.rows.inner.shared.table_id n first) r.items) }
{
    let mut seats = Vec::with_capacity(alloc, n)?;
    let mut rest = rest;
    for who in 0..n {
        let seat = table.rows.part(&mut rest);
        seats.push_reserved(ProcessSeat {
            seat,
            processes: n,
            who,
            stored: Stored {
                shown: [Shown {
                    bits: [0, 0],
                    latest: 0,
                }; 16],
                reads: [4; 16],
            },
            spare: first,
        });
    }
    Ok(seats)
}

impl<T: Planned> FourSlotFamily<T> {
    /// A write to the register of process `to`, which is this cell.
    #[inline(always)]
    fn write_at(&self, seat: &mut FourSlotSeat<T>, cell: usize, to: usize, item: &T)
        requires own { IsSeat self.now seat.old }
        requires other { (to < processes_of self.now) × (to ≢ number_of seat.old) }
        requires at { cell ≡ place seat.old.processes seat.old.who to }
        requires lawful { T.fits item.now
            × T.rises (last_or (opening_of self.now) (writes_of seat.old to).items) item.now }
        requires plan { MayWrite
            (T.plan (opening_of self.now) 3 (processes_of self.now) (limit_of self.now)
            (number_of seat.old)) 3 item.now to (doings_of seat.old) }
        ensures write { IsWriteTo (IsSeat self.now)
            number_of clock_of times_of writes_of reads_of said_of found_of 3 item.now to seat.old seat.new }
        ensures so_far { SeatShowsAll T.plan self.now seat.new }
    {
        let table = &self.table;
        let named = Snapshot::of(item);
        let reading = table.begin::<Brand>(&mut seat.seat, cell, named);
        let pair = other_bit(reading);
        let shown = &mut seat.stored.shown[to];
        let stored = bit_of(&shown.bits, pair);
        let index = other_bit(stored);
        let slot = slot_of(pair, index);
        table.fill(&mut seat.seat, cell, slot, item);
        set_bit(&mut shown.bits, pair, index);
        table.publish::<Brand>(&mut seat.seat, cell, pair, index, &mut shown.latest);
    }

    /// A read of the register of process `from`, which is this cell. A record that is the last answer again is shown
    /// only if `again` says so: else its slot isn't visited.
    #[inline(always)]
    fn read_at<L: Sees<T>>(
        &self,
        seat: &mut FourSlotSeat<T>,
        cell: usize,
        from: usize,
        again: bool,
        seen: &mut L,
    )
        requires own { IsSeat self.now seat.old }
        requires other { (from < processes_of self.now) × (from ≢ number_of seat.old) }
        requires at { cell ≡ place seat.old.processes from seat.old.who }
        requires plan { MayRead
            (T.plan (opening_of self.now) 3 (processes_of self.now) (limit_of self.now) (number_of seat.old)) 3 from
            (doings_of seat.old) }
        ensures read { IsReadFrom (IsSeat self.now) number_of clock_of times_of writes_of reads_of said_of found_of 3
            (opening_of self.now) T.fits T.rises (shown_by again L.sees) from
            (seat.old, seen.old) (seat.new, seen.new) }
        ensures so_far { SeatShowsAll T.plan self.now seat.new }
    {
        let table = &self.table;
        let last = seat.stored.reads[from];
        let (slot, moved) = table.newest::<Brand>(&mut seat.seat, cell, last);
        seat.stored.reads[from] = slot;
        table.show_where(&mut seat.seat, cell, slot, shows(again, moved), seen);
    }
}

/// Whether an answer is shown: always where it is to be shown again, and else where its slot isn't that of the last.
#[inline(always)]
fn shows(again: bool, moved: bool) -> bool
    ensures { result ≡ (again || moved) }
{
    again || moved
}

impl<T: Planned> Family<T> for FourSlotFamily<T> {
    type Seat = FourSlotSeat<T>;

    type Receipt = FourSlotReceipt<T>;

    ghost opening = { opening_of };

    ghost processes = { processes_of };

    ghost limit = { limit_of };

    ghost width = { 3 };

    ghost some_steps = { three_steps };

    ghost few_steps = { three_are_few };

    ghost is_seat = { IsSeat };

    ghost is_receipt = { IsReceipt };

    ghost who = { number_of };

    ghost clock = { clock_of };

    ghost times = { times_of };

    ghost writes = { writes_of };

    ghost reads = { reads_of };

    ghost said = { said_of };

    ghost found = { found_of };

    ghost sender = { sender_of };

    ghost time_of = { time_of };

    ghost named = { named_by };

    ghost writes_of = { carried_by };

    fn make(
        alloc: Global,
        n: usize,
        plan_limit: u64,
        first: T,
    ) -> Result<(Self, Vec<FourSlotSeat<T>>), AllocError> {
        let (table, rest) = FamilyTable::new(alloc, n, plan_limit, first)?;
        let seats = seats_of(alloc, &table, n, first, rest)?;
        Ok((FourSlotFamily { table }, seats))
    }

    #[inline]
    fn write_from(&self, seat: &mut FourSlotSeat<T>, to: usize, item: &T) {
        self.write_at(seat, place(seat.processes, seat.who, to), to, item);
    }

    #[inline(always)]
    fn write_all_from(&self, seat: &mut FourSlotSeat<T>, item: &T) {
        let processes = seat.processes;
        let who = seat.who;
        for to in 0..who {
            self.write_at(seat, place(processes, who, to), to, item);
        }
        for to in who + 1..processes {
            self.write_at(seat, place(processes, who, to), to, item);
        }
    }

    #[inline]
    fn read_from<L: Sees<T>>(&self, seat: &mut FourSlotSeat<T>, from: usize, seen: &mut L) {
        let cell = place(seat.processes, from, seat.who);
        self.read_at(seat, cell, from, true, seen);
    }

    #[inline(always)]
    fn read_all_from<L: Sees<T>>(&self, seat: &mut FourSlotSeat<T>, seen: &mut L) {
        let processes = seat.processes;
        let who = seat.who;
        for from in 0..who {
            self.read_at(seat, place(processes, from, who), from, false, seen);
        }
        for from in who + 1..processes {
            self.read_at(seat, place(processes, from, who), from, false, seen);
        }
    }

    #[inline]
    fn say(&self, seat: &mut FourSlotSeat<T>, tag: u64) {
        let words = words_of_cells(seat.processes);
        self.table.rows.say(&mut seat.seat, words, seat.who, tag);
    }

    #[inline]
    fn look(&self, seat: &mut FourSlotSeat<T>, from: usize, tag: u64) -> bool {
        let words = words_of_cells(seat.processes);
        self.table
            .rows
            .look::<Brand, Brand>(&mut seat.seat, words, from, tag)
    }

    fn tell(&self, seat: &mut FourSlotSeat<T>) -> FourSlotReceipt<T> {
        let told = self.table.rows.tell(&mut seat.seat);
        ProcessReceipt {
            seat: told,
            processes: seat.processes,
            from: seat.who,
            spare: seat.spare,
        }
    }

    fn duplicate(&self, told: &mut FourSlotReceipt<T>) -> FourSlotReceipt<T> {
        let again = self.table.rows.duplicate(&mut told.seat);
        ProcessReceipt {
            seat: again,
            processes: told.processes,
            from: told.from,
            spare: told.spare,
        }
    }

    fn learn(&self, seat: &mut FourSlotSeat<T>, told: FourSlotReceipt<T>) {
        let ProcessReceipt {
            seat: receipt,
            processes: _,
            from: _,
            spare: _,
        } = told;
        self.table.rows.hear(&mut seat.seat, receipt);
    }

    fn so_far(&self, seats: &mut Vec<FourSlotSeat<T>>)
        requires { (vec_len seats.old ≡ processes_of self.now)
            × Each (λ i s. IsSeat self.now s × (number_of s ≡ i)) seats.old.items }
        ensures same { (seats.new.items ≡ seats.old.items) × (vec_capacity seats.new ≡ vec_capacity seats.old) }
        ensures scheduled { (steps : List ℕ) × IsSchedule (processes_of self.now) steps
            × Each (λ i s. times_of s ≡ positions 1 i steps) seats.old.items }
        ensures atomic { EachTwo
            (λ i j s t. IsAtomicCell (opening_of self.now) (writes_of s j) (reads_of t i)) seats.old.items }
        ensures finds { FindWhatWasSaid said_of found_of seats.old.items }
    {
        show(&self.table.rows, seats);
    }

    fn finish(self, seats: Vec<FourSlotSeat<T>>)
        requires { (vec_len seats ≡ processes_of self) × Each (λ i s. IsSeat self s × (number_of s ≡ i)) seats.items }
        ensures scheduled { (steps : List ℕ) × IsSchedule (processes_of self) steps
            × Each (λ i s. times_of s ≡ positions 1 i steps) seats.items }
        ensures atomic { EachTwo
            (λ i j s t. IsAtomicCell (opening_of self) (writes_of s j) (reads_of t i)) seats.items }
        ensures finds { FindWhatWasSaid said_of found_of seats.items }
    {
        let FourSlotFamily { table } = self;
        let FamilyTable { rows } = table;
        let seat = gathered(&rows, seats);
        rows.close(seat);
    }
}

impl<T: Planned> SoFar<T> for FourSlotFamily<T> {
    fn so_far_from(&self, seat: &mut FourSlotSeat<T>) {
        self.table.rows.all_so_far(&mut seat.seat);
    }
}

impl<T: Planned> EndsWithSome<T> for FourSlotFamily<T> {
    fn finish_with(self, seats: Vec<FourSlotSeat<T>>)
        requires some { 0 < vec_len seats }
        requires seats { Each (λ i s. IsSeat self s) seats.items }
        ensures so_far { AreSoFarWith (T.plan (opening_of self) 3 (processes_of self) (limit_of self)) (opening_of self)
            (processes_of self) number_of times_of writes_of reads_of said_of found_of seats.items }
    {
        let FourSlotFamily { table } = self;
        let FamilyTable { rows } = table;
        let mut seat = gathered(&rows, seats);
        rows.all_so_far(&mut seat);
        rows.close(seat);
    }
}

impl<T: Kept + Planned> SharedFamily<T> for FourSlotFamily<T> {}
