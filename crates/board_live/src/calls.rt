//! Reading and writing.
ghost use Rattle.std.specs.Prelude.{◌≡◌, ◌≢◌, ◌+◌, ◌-◌, ◌*◌, ◌<◌, ◌≤◌, length, IfErr, IfOk, IsTrue};
ghost use Rattle.std.specs.Prelude.{[], ◌∷◌, ◌++◌, MatchResult, true, false};
ghost use Rattle.board_live.specs.inner.Calls.{LooksForTag, HasReadColumn, HasRow, HasWrittenRow, IsOf, ShowsAll};
ghost use Rattle.cell_contract.specs.Plans.{doings, MayFind, MayReadEach, MayWriteEach};
ghost use Rattle.cell_contract.specs.Running.{last_or};
ghost use Rattle.history_core.specs.declared.history.Kind.TheVariants.{Read};
ghost use Rattle.board_live.specs.Passes.{ChoosesStamp, IsBounded, IsCall, IsKnown, IsPass, kind_of};
ghost use Rattle.board_live.specs.Plans.{MakesCalls};
ghost use Rattle.board_live.specs.Receipts.{HandsOn};
ghost use Rattle.board_live.specs.SoFar.{HaveAtomicOrderSoFar};
ghost use Rattle.matrix_core.specs.Choices.{IsAtMost};
ghost use Rattle.matrix_core.specs.Stamps.{IsBelow};
ghost use Rattle.board_live.specs.Records.{Rises};

use crate::board::{Board, Pass, Refused};
use crate::record::{Posted, RecordLaw};
use cell_contract::Family;
use matrix_core::Stamp;

/// Reads what each other process shows, rising, and raises `seen`, which isn't below any of the last answers, to the
/// greatest. So a family may leave out what is the last answer again.
#[inline(always)]
fn column<V: RecordLaw, F: Family<Posted<V>>>(
    family: &F,
    processes: usize,
    process: usize,
    seat: &mut F::Seat,
    seen: &mut Posted<V>,
)
    requires of { IsOf ⟦<F as Family<Posted<V>>>⟧ family.now processes process seat.old }
    requires lawful { IsTrue (V.obeys seen.old.item) }
    requires newest { (j : _) → j < processes → j ≢ process →
        IsAtMost (last_or (F.opening family.now) (F.reads seat.old j).answers).stamp seen.old.stamp }
    requires plan { MayReadEach
        (MakesCalls (F.opening family.now) F.width (F.processes family.now) (F.limit family.now) (F.who seat.old))
        F.width (F.processes family.now) (F.who seat.old)
        (doings (F.times seat.old) (F.writes seat.old) (F.reads seat.old) (F.said seat.old) (F.found seat.old)) }
    ensures read { HasReadColumn ⟦<F as Family<Posted<V>>>⟧ V.obeys family.now process
        (processes - 1) seat.old seat.new seen.old seen.new }
    ensures so_far { ShowsAll ⟦<F as Family<Posted<V>>>⟧ family.now seat.new }
{
    family.read_all_from(seat, seen);
}

/// Writes the record to each other process, rising.
#[inline(always)]
fn row<V: RecordLaw, F: Family<Posted<V>>>(
    family: &F,
    processes: usize,
    process: usize,
    seat: &mut F::Seat,
    item: &Posted<V>,
)
    requires of { IsOf ⟦<F as Family<Posted<V>>>⟧ family.now processes process seat.old }
    requires rises { (j : _) → j < processes → j ≢ process →
        Rises (last_or (F.opening family.now) (F.writes seat.old j).items) item.now }
    requires lawful { IsTrue (V.obeys item.now.item) }
    requires plan { MayWriteEach
        (MakesCalls (F.opening family.now) F.width (F.processes family.now) (F.limit family.now) (F.who seat.old))
        F.width (F.processes family.now) (F.who seat.old) item.now
        (doings (F.times seat.old) (F.writes seat.old) (F.reads seat.old) (F.said seat.old) (F.found seat.old)) }
    ensures row { HasWrittenRow ⟦<F as Family<Posted<V>>>⟧ family.now process
        (processes - 1) seat.old seat.new item.now }
    ensures so_far { ShowsAll ⟦<F as Family<Posted<V>>>⟧ family.now seat.new }
{
    family.write_all_from(seat, item);
}

/// Looks whether the writer of the record, if it is another process, has said its tag: then its write has ended.
#[inline(always)]
fn was_told<V: RecordLaw, F: Family<Posted<V>>>(
    family: &F,
    processes: usize,
    process: usize,
    seat: &mut F::Seat,
    item: &Posted<V>,
) -> bool
    requires of { IsOf ⟦<F as Family<Posted<V>>>⟧ family.now processes process seat.old }
    requires plan { MayFind
        (MakesCalls (F.opening family.now) F.width (F.processes family.now) (F.limit family.now) (F.who seat.old))
        item.now.stamp.writer item.now.stamp.tag
        (doings (F.times seat.old) (F.writes seat.old) (F.reads seat.old) (F.said seat.old) (F.found seat.old)) }
    requires so_far { ShowsAll ⟦<F as Family<Posted<V>>>⟧ family.now seat.old }
    ensures found { LooksForTag ⟦<F as Family<Posted<V>>>⟧ family.now seat.old seat.new item.now result }
    ensures so_far { ShowsAll ⟦<F as Family<Posted<V>>>⟧ family.now seat.new }
{
    let from = item.stamp.writer;
    if from >= processes {
        return false;
    }
    if from == process {
        return false;
    }
    family.look(seat, from, item.stamp.tag)
}

/// Writes the record to each other process, if it isn't the own record, which they were told before, and if it isn't
/// found that it was told. Gives whether this process has told what it has then.
#[inline]
fn tell_row<V: RecordLaw, F: Family<Posted<V>>>(
    family: &F,
    processes: usize,
    process: usize,
    seat: &mut F::Seat,
    own: &Posted<V>,
    item: &Posted<V>,
    told: bool,
) -> bool
    requires of { IsOf ⟦<F as Family<Posted<V>>>⟧ family.now processes process seat.old }
    requires below { (j : _) → j < processes → j ≢ process →
        Rises (last_or (F.opening family.now) (F.writes seat.old j).items) own.now }
    requires rises { Rises own.now item.now }
    requires lawful { IsTrue (V.obeys item.now.item) }
    requires plan { MayWriteEach
        (MakesCalls (F.opening family.now) F.width (F.processes family.now) (F.limit family.now) (F.who seat.old))
        F.width (F.processes family.now) (F.who seat.old) item.now
        (doings (F.times seat.old) (F.writes seat.old) (F.reads seat.old) (F.said seat.old) (F.found seat.old)) }
    requires may_find { MayFind
        (MakesCalls (F.opening family.now) F.width (F.processes family.now) (F.limit family.now) (F.who seat.old))
        item.now.stamp.writer item.now.stamp.tag
        (doings (F.times seat.old) (F.writes seat.old) (F.reads seat.old) (F.said seat.old) (F.found seat.old)) }
    requires so_far { ShowsAll ⟦<F as Family<Posted<V>>>⟧ family.now seat.old }
    ensures row { HasRow ⟦<F as Family<Posted<V>>>⟧ family.now process
        (processes - 1) seat.old seat.new own.now item.now told result }
    ensures so_far { ShowsAll ⟦<F as Family<Posted<V>>>⟧ family.now seat.new }
    ensures silent { own.now.stamp ≡ item.now.stamp → seat.new ≡ seat.old }
{
    if own.stamp == item.stamp {
        told
    } else if was_told(family, processes, process, seat, item) {
        false
    } else {
        row(family, processes, process, seat, item);
        true
    }
}

impl<V: RecordLaw, F: Family<Posted<V>>> Board<V, F> {
    /// Gives the greatest of the process's own record and what each other process shows, and hands it on, if it isn't
    /// the own record, and if it doesn't find that its write has ended. It is a record that was really written, or the
    /// opening.
    #[inline]
    pub fn read(&self, pass: &mut Pass<V, F>) -> Posted<V>
        requires { IsPass ⟦<F as Family<Posted<V>>>⟧ V.obeys self.now pass.old }
        ensures pass { IsPass ⟦<F as Family<Posted<V>>>⟧ V.obeys self.now pass.new }
        ensures call { IsCall ⟦<F as Family<Posted<V>>>⟧ V.obeys self.now Read pass.old pass.new result }
        ensures known { IsKnown ⟦<F as Family<Posted<V>>>⟧ self.now pass.old pass.new result }
        ensures chosen { pass.new.own ≡ result }
        // A read that has its process's own record takes the steps of its column alone.
        ensures quiet { result.stamp ≡ pass.old.own.stamp →
            length (F.times pass.new.seat) ≡ length (F.times pass.old.seat) + (self.now.processes - 1) * F.width }
        ensures bounded { IsBounded ⟦<F as Family<Posted<V>>>⟧ self.now pass.old pass.new }
        ensures lawful { IsTrue (V.obeys result.item) }
        // All calls of all processes so far, ended or cut off, have one atomic order that refuses
        // lawfully, and this call stands in it.
        ensures so_far { HaveAtomicOrderSoFar ⟦<F as Family<Posted<V>>>⟧ self.now pass.new }
    {
        let before = pass.own;
        column(
            &self.family,
            self.processes,
            pass.process,
            &mut pass.seat,
            &mut pass.own,
        );
        pass.told = tell_row(
            &self.family,
            self.processes,
            pass.process,
            &mut pass.seat,
            &before,
            &pass.own,
            pass.told,
        );
        pass.own
    }

    /// Reads, and hands on what it chose in any case.
    pub(crate) fn hand_on(&self, pass: &mut Pass<V, F>)
        requires { IsPass ⟦<F as Family<Posted<V>>>⟧ V.obeys self.now pass.old }
        ensures pass { IsPass ⟦<F as Family<Posted<V>>>⟧ V.obeys self.now pass.new }
        ensures handed { HandsOn ⟦<F as Family<Posted<V>>>⟧ V.obeys self.now pass.old pass.new }
    {
        column(
            &self.family,
            self.processes,
            pass.process,
            &mut pass.seat,
            &mut pass.own,
        );
        row(
            &self.family,
            self.processes,
            pass.process,
            &mut pass.seat,
            &pass.own,
        );
        pass.told = true;
    }

    /// Hands the process's own record on, if it wasn't told.
    pub(crate) fn tell_own(&self, pass: &mut Pass<V, F>)
        requires { IsPass ⟦<F as Family<Posted<V>>>⟧ V.obeys self.now pass.old }
        ensures pass { IsPass ⟦<F as Family<Posted<V>>>⟧ V.obeys self.now pass.new }
        ensures kept { pass.old.told ≡ true → pass.new ≡ pass.old }
        ensures handed { pass.old.told ≡ false →
            HandsOn ⟦<F as Family<Posted<V>>>⟧ V.obeys self.now pass.old pass.new }
        ensures told { pass.new.told ≡ true }
        ensures process { (pass.new.process ≡ pass.old.process) × (F.clock pass.old.seat ≤ F.clock pass.new.seat) }
    {
        if !pass.told {
            self.hand_on(pass);
        }
    }

    /// Gives the item the next stamp above what the own record and the others show, hands it on, and says its tag. If
    /// the greatest tag seen isn't below the limit, hands on what was seen.
    #[inline]
    pub fn write(&self, pass: &mut Pass<V, F>, item: V) -> Result<Stamp, Refused<V>>
        requires pass { IsPass ⟦<F as Family<Posted<V>>>⟧ V.obeys self.now pass.old }
        requires item { IsTrue (V.obeys item) }
        ensures pass { IsPass ⟦<F as Family<Posted<V>>>⟧ V.obeys self.now pass.new }
        ensures call { (seen : _)
            × IsCall ⟦<F as Family<Posted<V>>>⟧ V.obeys self.now (kind_of result) pass.old pass.new seen
            × ChoosesStamp self.now.limit pass.old.process item seen pass.new.own result }
        ensures raised { IfOk result (λ s. IsBelow pass.old.own.stamp s) }
        ensures told { pass.new.told ≡ true }
        // As it ends it says its tag; a refused one says nothing.
        ensures said { MatchResult result
            (λ s. F.said pass.new.seat ≡ F.said pass.old.seat ++ record {
              tag = s.tag;
              time = F.clock pass.new.seat;
            } ∷ [])
            (λ e. F.said pass.new.seat ≡ F.said pass.old.seat) }
        ensures bounded { IsBounded ⟦<F as Family<Posted<V>>>⟧ self.now pass.old pass.new }
        ensures lawful { IfErr result (λ e. IsTrue (V.obeys e.seen.item)) }
        // All calls of all processes so far, ended or cut off, have one atomic order that refuses
        // lawfully, and this call stands in it.
        ensures so_far { HaveAtomicOrderSoFar ⟦<F as Family<Posted<V>>>⟧ self.now pass.new }
    {
        column(
            &self.family,
            self.processes,
            pass.process,
            &mut pass.seat,
            &mut pass.own,
        );
        let next = pass.own.stamp.next(self.limit, pass.process);
        pass.own.renew(next, item);
        row(
            &self.family,
            self.processes,
            pass.process,
            &mut pass.seat,
            &pass.own,
        );
        pass.told = true;
        match next {
            Some(stamp) => {
                self.family.say(&mut pass.seat, stamp.tag);
                Ok(stamp)
            }
            None => Err(Refused { seen: pass.own }),
        }
    }
}
