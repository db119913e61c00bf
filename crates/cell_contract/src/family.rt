//! What a family promises.
ghost use Rattle.std.specs.Prelude.{◌≡◌, ◌≢◌, true, false, ℕ, ◌-◌, ◌<◌, ◌≤◌, List, [], ◌∷◌, ◌++◌, length};
ghost use Rattle.std.specs.Prelude.{vec_len, vec_capacity, IfOk};
ghost use Rattle.history_core.specs.Schedules.{positions};
ghost use Rattle.cell_contract.specs.Running.{last_or};
ghost use Rattle.cell_contract.specs.Intervals.{known_as};
ghost use Rattle.cell_contract.specs.declared.times.Known.{Known};
ghost use Rattle.cell_contract.specs.Accesses.{WriteAccesses, ReadAccesses, IsUnused, IsAccess, FindsTag};
ghost use Rattle.cell_contract.specs.Accesses.{IsWriteAccess, IsHeardRead, KeepsEach};
ghost use Rattle.cell_contract.specs.Accesses.{KeepsOthers};
ghost use Rattle.cell_contract.specs.Plans.{AreSoFar, Doings, doings, HasNoSteps, MayRead};
ghost use Rattle.cell_contract.specs.Plans.{MayReadEach, MayWrite, MayWriteEach, MaySay, MayFind};
ghost use Rattle.cell_contract.specs.Ends.{Each, EachTwo, IsSchedule, IsAtomicCell, FindWhatWasSaid};
ghost use Rattle.cell_contract.specs.declared.said.Said.{Said};
ghost use Rattle.cell_contract.specs.declared.said.Found.{Found};
ghost use Rattle.cell_contract.specs.Rows.{OneByOne, IsReadFrom, IsWriteTo, SeesNew};

use crate::{Kept, Lawful};
use std::alloc::{AllocError, Global};

/// What sees records, one after the other.
pub trait Sees<T> {
    // What it becomes by a record that it sees.
    ghost sees: { Self → T → Self → Type 0 };

    /// Sees one record more, where it lies.
    fn see(&mut self, item: &T)
        ensures { sees self.old item.now self.new };
}

/// A record whose processes keep to a plan: at any moment, also within an access, what each has done is of the plan. So
/// what all have done is known of those too that were stopped for ever.
pub trait Planned: Lawful {
    // Whether it is of the plan, where all registers opened with this record and an access takes so many steps, that of
    // so many processes with this limit the process with this number has done this.
    ghost plan: { Self → ℕ → ℕ → ℕ → ℕ → Doings Self → Type 0 };
}

/// The calls of a family: registers of one writer and one reader each, from each of 2 to 16
/// processes to each other one.
///
/// Lists, numbers and times are known to contracts alone. The running program has none of them.
///
/// Each access ends with what all processes have done so far (`so_far`), also those that were stopped for ever.
pub trait Family<T: Planned>: Sized + Drop {
    /// The right to write and to read as one of the processes.
    type Seat: Drop;

    /// A receipt of a process for what it has written.
    type Receipt: Drop;

    // The record that each register opened with, how many processes there are, and the limit of
    // which the records' plan speaks.
    ghost opening: { Self → T };

    ghost processes: { Self → ℕ };

    ghost limit: { Self → ℕ };

    // The steps of the schedule that an access makes. They are those of the registers' mechanism: one load or store of
    // memory may make several of them.
    ghost width: { ℕ };

    ghost some_steps: { 0 < width };

    ghost few_steps: { width ≤ 3 };

    // Whether the seat or the receipt is of this family.
    ghost is_seat: { Self → Self.Seat → Type 0 };

    ghost is_receipt: { Self → Self.Receipt → Type 0 };

    // The process, the last time of which it knows, and the times of its steps.
    ghost who: { Self.Seat → ℕ };

    ghost clock: { Self.Seat → ℕ };

    ghost times: { Self.Seat → List ℕ };

    // What it wrote to a process, and what it read from one.
    ghost writes: { Self.Seat → ℕ → WriteAccesses T };

    ghost reads: { Self.Seat → ℕ → ReadAccesses T };

    // The tags that it said, and those that it found other processes to have said.
    ghost said: { Self.Seat → List Said };

    ghost found: { Self.Seat → List Found };

    // Whose receipt it is, its time, the record that it names to a process, and all that was
    // written to that one up to then.
    ghost sender: { Self.Receipt → ℕ };

    ghost time_of: { Self.Receipt → ℕ };

    ghost named: { Self.Receipt → ℕ → T };

    ghost writes_of: { Self.Receipt → ℕ → Known T };

    /// A family of `n` processes whose registers all hold `first`, with the seat of each process. The records'
    /// plan alone speaks of its limit.
    fn make(
        alloc: Global,
        n: usize,
        plan_limit: u64,
        first: T,
    ) -> Result<(Self, Vec<Self::Seat>), AllocError>
        requires lawful { T.fits first }
        requires processes { (2 ≤ n) × (n ≤ 16) }
        requires plan { (i : ℕ) (done : Doings T) → i < n → HasNoSteps done → T.plan first width n plan_limit i done }
        ensures opens { IfOk result (λ r. (opening r.0 ≡ first) × (processes r.0 ≡ n) × (limit r.0 ≡ plan_limit)) }
        ensures seats { IfOk result (λ r. (vec_len r.1 ≡ n) × Each (λ i s. is_seat r.0 s × (who s ≡ i)) r.1.items) }
        ensures unused { IfOk result (λ r.
            Each (λ i s. IsUnused (clock s) (times s) (writes s) (reads s) (said s) (found s)) r.1.items) };

    /// Shows the record to one other process.
    fn write_from(&self, seat: &mut Self::Seat, to: usize, item: &T)
        requires own { is_seat self.now seat.old }
        requires other { (to < processes self.now) × (to ≢ who seat.old) }
        requires lawful { T.fits item.now × T.rises (last_or (opening self.now) (writes seat.old to).items) item.now }
        requires plan { MayWrite
            (T.plan (opening self.now) width (processes self.now) (limit self.now) (who seat.old)) width item.now to
            (doings (times seat.old) (writes seat.old) (reads seat.old) (said seat.old) (found seat.old)) }
        ensures own { is_seat self.now seat.new × (who seat.new ≡ who seat.old) }
        ensures access { IsAccess width (clock seat.old) (clock seat.new) (times seat.old) (times seat.new)
            (writes seat.old to).times (writes seat.new to).times }
        ensures written { IsWriteAccess (writes seat.old to) (writes seat.new to) item.now }
        ensures others { KeepsOthers to (writes seat.old) (writes seat.new)
            × KeepsEach (reads seat.old) (reads seat.new) }
        ensures tags { (said seat.new ≡ said seat.old) × (found seat.new ≡ found seat.old) }
        ensures so_far { AreSoFar (T.plan (opening self.now) width (processes self.now) (limit self.now))
            (opening self.now) (processes self.now) (who seat.new) (times seat.new) (writes seat.new)
            (reads seat.new) (said seat.new) (found seat.new) };

    /// Shows the record to each other process, rising: the same as so many calls of
    /// `write_from`, in fewer instructions.
    fn write_all_from(&self, seat: &mut Self::Seat, item: &T)
        requires own { is_seat self.now seat.old }
        requires lawful { T.fits item.now }
        requires rises { (j : ℕ) → j < processes self.now → j ≢ who seat.old →
            T.rises (last_or (opening self.now) (writes seat.old j).items) item.now }
        requires plan { MayWriteEach
            (T.plan (opening self.now) width (processes self.now) (limit self.now) (who seat.old)) width
            (processes self.now) (who seat.old) item.now
            (doings (times seat.old) (writes seat.old) (reads seat.old) (said seat.old) (found seat.old)) }
        ensures row { OneByOne (IsWriteTo (is_seat self.now) who clock times writes reads said found width item.now)
            (who seat.old) seat.old (processes self.now - 1) seat.new }
        ensures so_far { AreSoFar (T.plan (opening self.now) width (processes self.now) (limit self.now))
            (opening self.now) (processes self.now) (who seat.new) (times seat.new) (writes seat.new)
            (reads seat.new) (said seat.new) (found seat.new) };

    /// Shows one whole record of another process where it lies, so that nothing is copied. It is a record that was
    /// written, and by its law it may stand after each that this process saw or was told of that one.
    fn read_from<L: Sees<T>>(&self, seat: &mut Self::Seat, from: usize, seen: &mut L)
        requires own { is_seat self.now seat.old }
        requires other { (from < processes self.now) × (from ≢ who seat.old) }
        requires plan { MayRead
            (T.plan (opening self.now) width (processes self.now) (limit self.now) (who seat.old)) width from
            (doings (times seat.old) (writes seat.old) (reads seat.old) (said seat.old) (found seat.old)) }
        ensures read { IsReadFrom (is_seat self.now) who clock times writes reads said found width
            (opening self.now) T.fits T.rises (λ _. L.sees) from (seat.old, seen.old) (seat.new, seen.new) }
        ensures so_far { AreSoFar (T.plan (opening self.now) width (processes self.now) (limit self.now))
            (opening self.now) (processes self.now) (who seat.new) (times seat.new) (writes seat.new)
            (reads seat.new) (said seat.new) (found seat.new) };

    /// Shows one record of each other process, rising: the same as so many calls of `read_from`, in fewer instructions,
    /// but that a record which is the last answer again may be left out.
    fn read_all_from<L: Sees<T>>(&self, seat: &mut Self::Seat, seen: &mut L)
        requires own { is_seat self.now seat.old }
        requires plan { MayReadEach
            (T.plan (opening self.now) width (processes self.now) (limit self.now) (who seat.old)) width
            (processes self.now) (who seat.old)
            (doings (times seat.old) (writes seat.old) (reads seat.old) (said seat.old) (found seat.old)) }
        ensures column { OneByOne
            (IsReadFrom (is_seat self.now) who clock times writes reads said found width (opening self.now) T.fits
            T.rises (SeesNew L.sees))
            (who seat.old) (seat.old, seen.old) (processes self.now - 1) (seat.new, seen.new) }
        ensures so_far { AreSoFar (T.plan (opening self.now) width (processes self.now) (limit self.now))
            (opening self.now) (processes self.now) (who seat.new) (times seat.new) (writes seat.new)
            (reads seat.new) (said seat.new) (found seat.new) };

    /// Says this tag to whoever looks. Each of them looks at the last tag that the process said. It is no step of the
    /// schedule.
    fn say(&self, seat: &mut Self::Seat, tag: u64)
        requires own { is_seat self.now seat.old }
        requires plan { MaySay
            (T.plan (opening self.now) width (processes self.now) (limit self.now) (who seat.old)) tag (clock seat.old)
            (doings (times seat.old) (writes seat.old) (reads seat.old) (said seat.old) (found seat.old)) }
        ensures own { is_seat self.now seat.new × (who seat.new ≡ who seat.old) }
        ensures said { said seat.new ≡ said seat.old ++ record { tag = tag; time = clock seat.old } ∷ [] }
        ensures same { (clock seat.new ≡ clock seat.old) × (times seat.new ≡ times seat.old)
            × (found seat.new ≡ found seat.old) }
        ensures calls { KeepsEach (writes seat.old) (writes seat.new) × KeepsEach (reads seat.old) (reads seat.new) };

    /// Looks whether a process has said this tag or a greater one. Where the last that it said is so, this is a step of
    /// the schedule, and the process knows that it was said before. Else nothing changes.
    fn look(&self, seat: &mut Self::Seat, from: usize, tag: u64) -> bool
        requires own { is_seat self.now seat.old }
        requires other { (from < processes self.now) × (from ≢ who seat.old) }
        requires plan { MayFind
            (T.plan (opening self.now) width (processes self.now) (limit self.now) (who seat.old)) from tag
            (doings (times seat.old) (writes seat.old) (reads seat.old) (said seat.old) (found seat.old)) }
        ensures own { is_seat self.now seat.new × (who seat.new ≡ who seat.old) }
        ensures finds { result ≡ true → FindsTag from tag (clock seat.old) (clock seat.new) (times seat.old)
            (times seat.new) (found seat.old) (found seat.new) }
        ensures unfound { result ≡ false → (clock seat.new ≡ clock seat.old) × (times seat.new ≡ times seat.old)
            × (found seat.new ≡ found seat.old) }
        ensures said { said seat.new ≡ said seat.old }
        ensures calls { KeepsEach (writes seat.old) (writes seat.new) × KeepsEach (reads seat.old) (reads seat.new) }
        ensures so_far { AreSoFar (T.plan (opening self.now) width (processes self.now) (limit self.now))
            (opening self.now) (processes self.now) (who seat.new) (times seat.new) (writes seat.new)
            (reads seat.new) (said seat.new) (found seat.new) };

    /// Gives a receipt for all that the process has written, which carries these writes.
    fn tell(&self, seat: &mut Self::Seat) -> Self::Receipt
        requires own { is_seat self.now seat.old }
        ensures own { is_seat self.now seat.new × (who seat.new ≡ who seat.old) }
        ensures told { is_receipt self.now result × (sender result ≡ who seat.old) × (time_of result ≡ clock seat.old) }
        ensures named { (j : ℕ) → j < processes self.now → j ≢ who seat.old →
            named result j ≡ last_or (opening self.now) (writes seat.old j).items }
        ensures tells { (j : ℕ) → j < processes self.now → j ≢ who seat.old →
            writes_of result j ≡ known_as (writes seat.old j).items (writes seat.old j).times }
        ensures same { (clock seat.new ≡ clock seat.old) × (times seat.new ≡ times seat.old) }
        ensures tags { (said seat.new ≡ said seat.old) × (found seat.new ≡ found seat.old) }
        ensures calls { KeepsEach (writes seat.old) (writes seat.new) × KeepsEach (reads seat.old) (reads seat.new) };

    /// Gives a second receipt that tells the same, for one learner more.
    fn duplicate(&self, told: &mut Self::Receipt) -> Self::Receipt
        requires own { is_receipt self.now told.old }
        ensures same { told.new ≡ told.old }
        ensures told { is_receipt self.now result × (sender result ≡ sender told.old)
            × (time_of result ≡ time_of told.old) }
        ensures tells { KeepsEach (named told.old) (named result) × KeepsEach (writes_of told.old) (writes_of result) };

    /// Takes a receipt in: what this process calls from now on begins later than all that its sender had done, and what
    /// it knows of the sender's register begins with what that one had really written to it.
    fn learn(&self, seat: &mut Self::Seat, told: Self::Receipt)
        requires own { is_seat self.now seat.old × is_receipt self.now told }
        ensures own { is_seat self.now seat.new × (who seat.new ≡ who seat.old) }
        ensures later { (clock seat.old ≤ clock seat.new) × (time_of told ≤ clock seat.new)
            × (times seat.new ≡ times seat.old) }
        ensures heard { sender told ≢ who seat.old →
            IsHeardRead (reads seat.old (sender told)) (reads seat.new (sender told))
            (named told (who seat.old)) (writes_of told (who seat.old)) }
        ensures others { KeepsEach (writes seat.old) (writes seat.new)
            × KeepsOthers (sender told) (reads seat.old) (reads seat.new) }
        ensures tags { (said seat.new ≡ said seat.old) × (found seat.new ≡ found seat.old) };

    /// Shows what was done so far with all seats: it is one schedule, and the calls of each register are atomic by
    /// their intervals in its time. Nothing changes.
    fn so_far(&self, seats: &mut Vec<Self::Seat>)
        requires { (vec_len seats.old ≡ processes self.now)
            × Each (λ i s. is_seat self.now s × (who s ≡ i)) seats.old.items }
        ensures same { (seats.new.items ≡ seats.old.items) × (vec_capacity seats.new ≡ vec_capacity seats.old) }
        ensures scheduled { (steps : List ℕ) × IsSchedule (processes self.now) steps
            × Each (λ i s. times s ≡ positions 1 i steps) seats.old.items }
        ensures atomic { EachTwo (λ i j s t. IsAtomicCell (opening self.now) (writes s j) (reads t i))
            seats.old.items }
        ensures finds { FindWhatWasSaid said found seats.old.items };

    /// Ends the family: all that was done is one schedule, and the calls of each register are atomic by
    /// their intervals in its time.
    fn finish(self, seats: Vec<Self::Seat>)
        requires { (vec_len seats ≡ processes self) × Each (λ i s. is_seat self s × (who s ≡ i)) seats.items }
        ensures scheduled { (steps : List ℕ) × IsSchedule (processes self) steps
            × Each (λ i s. times s ≡ positions 1 i steps) seats.items }
        ensures atomic { EachTwo (λ i j s t. IsAtomicCell (opening self) (writes s j) (reads t i)) seats.items }
        ensures finds { FindWhatWasSaid said found seats.items };
}

/// A family in which each seat shows what all processes have done so far.
pub trait SoFar<T: Planned>: Family<T> {
    /// Shows what all processes have done so far, while they go on, and also those that were
    /// stopped for ever. Nothing changes.
    fn so_far_from(&self, seat: &mut Self::Seat)
        requires own { Self.is_seat self.now seat.old }
        ensures same { seat.new ≡ seat.old }
        ensures so_far { AreSoFar
            (T.plan (Self.opening self.now) Self.width (Self.processes self.now) (Self.limit self.now))
            (Self.opening self.now) (Self.processes self.now) (Self.who seat.old) (Self.times seat.old)
            (Self.writes seat.old) (Self.reads seat.old) (Self.said seat.old) (Self.found seat.old) };
}

/// A family that threads can share.
pub trait SharedFamily<T: Kept + Planned>: Family<T> + Send + Sync {}
