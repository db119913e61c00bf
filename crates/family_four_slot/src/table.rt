//! The table of a family of four-slot cells and every step of the mechanism on it. No other module of this crate steps
//! on the table but by what stands here, and by what is so of any family's table.
ghost use Rattle.std.specs.Prelude.{◌≡◌, ◌≢◌, true, false, ℕ, ◌+◌, ◌*◌, ◌-◌, ◌<◌, ◌≤◌, List, [], ◌∷◌, ◌++◌};
ghost use Rattle.std.specs.Prelude.{length, IfOk};
ghost use mathlib.Core.Option.{none};
ghost use Rattle.std.specs.declared.snapshot.Snapshot.{Snapshot};
ghost use Rattle.atomic_table.specs.Table.{step};
ghost use Rattle.four_slot_core.specs.declared.state.Stage.TheVariants.{W3, W4, W5};
ghost use Rattle.four_slot_core.specs.declared.state.ReaderStage.TheVariants.{R1, R2, R5};
ghost use Rattle.four_slot_core.specs.Events.{bit_number, slot_number};
ghost use Rattle.cell_contract.specs.Running.{last_or, held_slots};
ghost use Rattle.cell_contract.specs.Plans.{Doings, HasNoSteps};
ghost use Rattle.cell_four_slot.specs.declared.notes.WriterNotes.{WriterNotes};
ghost use Rattle.cell_four_slot.specs.declared.notes.ReaderNotes.{ReaderNotes};
ghost use Rattle.cell_contract.specs.declared.sight.Sight.TheVariants.{Writer, Reader, Spent};
ghost use Rattle.cell_four_slot.specs.Steps.{FourSlotSight, slot_of_choice, word_said};
ghost use Rattle.family_table.specs.declared.notes.Process.{Process};
ghost use Rattle.family_table.specs.Layouts.{shift};
ghost use Rattle.family_four_slot.specs.Places.{four_slots, slot_at};
ghost use Rattle.family_four_slot.specs.FourSlots.{first_view, Idle};
ghost use Rattle.family_four_slot.specs.Access.{HasLooked};
ghost use Rattle.family_four_slot.specs.Plans.{plan_of, MayAsk, MayBegin, MayFinish, MayGet, MayLook, MayPublish};
ghost use Rattle.family_four_slot.specs.Plans.{MaySayPair, MayTake, ShowsAll};
ghost use Rattle.family_four_slot.specs.Steps.{begins, stores_on, publishes, finishes, asks, says, takes, takes_on};
ghost use Rattle.family_four_slot.specs.Tables.{HasWriter, HasReader, IsEnded};
ghost use Rattle.family_four_slot.specs.Words.{number_chosen};
ghost use Rattle.family_table.specs.Family.{of_cell};

use crate::mechanism::FourSlotMechanism;
use crate::plays::{Asks, Begins, Finishes, Item, Says, Stores, Takes, TakesOn};
use cell_contract::{Planned, Sees};
use cell_four_slot::{FourSlotSight, slot_of};
use family_table::notes::Opening;
use family_table::plays::Showing;
use family_table::table::Rows;
use std::alloc::{AllocError, Global};
use std::snapshot::Snapshot;

/// The words and slots of all cells. Eight words that nobody stores to come first, and last a word of each process, in
/// which it says its tags.
#[derive(Drop)]
pub struct FamilyTable<T: Planned> {
    pub(crate) rows: Rows<T, FourSlotSight<T>, FourSlotMechanism>,
    ghost sized: { rows.inner.shared.table_id.words
        ≡ (four_slots rows.inner.shared.key.processes).words + 8 * rows.inner.shared.key.processes },
}

/// A seat at the table.
pub type FamilySeat<T> = family_table::table::FamilySeat<T, FourSlotSight<T>>;

/// The first of a cell's words.
#[inline]
fn base(cell: usize) -> usize
    requires { cell < 256 }
    ensures { result ≡ 16 * cell + 8 }
{
    16 * cell + 8
}

/// How many words come before those of tags.
#[inline]
pub(super) fn words_of_cells(processes: usize) -> usize
    requires { processes ≤ 16 }
    ensures { (result ≡ (four_slots processes).words) × (result ≤ 4104) }
{
    16 * (processes * processes) + 8
}

/// The place of a cell's slot.
#[inline]
fn slot_place(cell: usize, slot: usize) -> usize
    requires { (cell < 256) × (slot < 4) }
    ensures { result ≡ slot_at cell slot }
{
    4 * cell + slot
}

impl<T: Planned> FamilyTable<T> {
    /// A table of the cells of so many processes, which all hold this record, and a seat that has all processes. The
    /// records' plan alone speaks of the limit.
    pub fn new(
        alloc: Global,
        processes: usize,
        limit: u64,
        first: T,
    ) -> Result<(Self, FamilySeat<T>), AllocError>
        requires lawful { T.fits first }
        requires some { (2 ≤ processes) × (processes ≤ 16) }
        requires plan { (i : ℕ) (done : Doings T) → i < processes → HasNoSteps done →
            T.plan first 3 processes limit i done }
        ensures key { IfOk result (λ r.
            r.0.rows.inner.shared.key ≡ record { first = first; processes = processes; limit = limit }) }
        ensures seat { IfOk result (λ r. (r.1.inner.table_id ≡ r.0.rows.inner.shared.table_id)
            × (r.1.inner.me ≡ (first_view first processes, []))) }
    {
        let (rows, seat) = Rows::new(alloc, processes, limit, first, 16, 0, 4)?;
        Ok((FamilyTable { rows }, seat))
    }

    /// W1 of a write to this cell, of which the seat's view is told the item.
    #[inline]
    pub(super) fn begin<K: Item<T>>(
        &self,
        seat: &mut FamilySeat<T>,
        cell: usize,
        item: Snapshot<T>,
    ) -> u64
        requires own { seat.old.inner.table_id ≡ self.now.rows.inner.shared.table_id }
        requires place { cell < (four_slots self.now.rows.inner.shared.key.processes).cells }
        requires item { K.item ≡ item.value ∷ [] }
        requires idle { (v : Process (FourSlotSight T)) × (p : WriterNotes T)
            × HasWriter seat.old.inner.me cell v p × (p.stage ≡ W5)
            × T.fits item.value
            × T.rises (last_or p.opening.value p.written) item.value
            × MayBegin (plan_of T.plan self.now.rows.inner.shared.key) cell v p item.value }
        ensures own { seat.new.inner.table_id ≡ seat.old.inner.table_id }
        ensures begun { begins K.item (step self.now.rows.inner.shared.table_id.slots (16 * cell + 8 + 8) 0 0 none)
            seat.old.inner.me result seat.new.inner.me }
    {
        self.rows
            .inner
            .shared
            .load::<Begins<K>>(&mut seat.inner, base(cell) + 8)
    }

    /// W4 and W5. W5's store is left out where `latest` has the pair already. `shown` is what it has.
    #[inline]
    pub(super) fn publish<K: Opening<T>>(
        &self,
        seat: &mut FamilySeat<T>,
        cell: usize,
        pair: u64,
        index: u64,
        shown: &mut u64,
    )
        requires opening { (K.first ≡ self.now.rows.inner.shared.key.first ∷ [])
            × (K.processes ≡ self.now.rows.inner.shared.key.processes)
            × (K.limit ≡ self.now.rows.inner.shared.key.limit) }
        requires own { seat.old.inner.table_id ≡ self.now.rows.inner.shared.table_id }
        requires place { cell < (four_slots self.now.rows.inner.shared.key.processes).cells }
        requires filled { (v : Process (FourSlotSight T)) × (p : WriterNotes T) × (cs : List (ℕ × T))
            × HasWriter seat.old.inner.me cell v p
            × (seat.old.inner.me.1 ≡ (slot_at cell (slot_number p.slot), p.item.value) ∷ cs) × (p.stage ≡ W3)
            × (pair ≡ bit_number p.slot.pair) × (index ≡ bit_number p.slot.index) × (shown.old ≡ bit_number p.latest)
            × MayPublish (plan_of T.plan self.now.rows.inner.shared.key) cell v p }
        ensures own { seat.new.inner.table_id ≡ seat.old.inner.table_id }
        ensures published { publishes cell seat.old.inner.me seat.new.inner.me }
        ensures shown { ShowsAll T.plan self.now.rows.inner.shared.key seat.new.inner.me }
        ensures remembered { shown.new ≡ pair }
    {
        self.store::<K>(seat, cell, pair, index);
        if pair == *shown {
            return;
        }
        *shown = pair;
        self.finish::<K>(seat, cell, pair);
    }

    /// W4: stores the index in the pair's word, and gives the slot back. This is W5 too where
    /// `latest` has the pair already.
    #[inline]
    fn store<K: Opening<T>>(&self, seat: &mut FamilySeat<T>, cell: usize, pair: u64, index: u64)
        requires opening { (K.first ≡ self.now.rows.inner.shared.key.first ∷ [])
            × (K.processes ≡ self.now.rows.inner.shared.key.processes)
            × (K.limit ≡ self.now.rows.inner.shared.key.limit) }
        requires own { seat.old.inner.table_id ≡ self.now.rows.inner.shared.table_id }
        requires place { cell < (four_slots self.now.rows.inner.shared.key.processes).cells }
        requires filled { (v : Process (FourSlotSight T)) × (p : WriterNotes T) × (cs : List (ℕ × T))
            × HasWriter seat.old.inner.me cell v p
            × (seat.old.inner.me.1 ≡ (slot_at cell (slot_number p.slot), p.item.value) ∷ cs) × (p.stage ≡ W3)
            × (pair ≡ bit_number p.slot.pair) × (index ≡ bit_number p.slot.index)
            × MayPublish (plan_of T.plan self.now.rows.inner.shared.key) cell v p }
        ensures own { seat.new.inner.table_id ≡ seat.old.inner.table_id }
        ensures stored { stores_on
            (step self.now.rows.inner.shared.table_id.slots (16 * cell + 8 + (2 + pair)) index 0 none)
            seat.old.inner.me index seat.new.inner.me }
        ensures shown { ShowsAll T.plan self.now.rows.inner.shared.key seat.new.inner.me }
    {
        self.rows
            .inner
            .shared
            .store::<Showing<Stores, FourSlotMechanism, K>>(
                &mut seat.inner,
                base(cell) + (2 + pair as usize),
                index,
            );
    }

    /// W5: stores the pair in `latest`.
    #[inline]
    fn finish<K: Opening<T>>(&self, seat: &mut FamilySeat<T>, cell: usize, pair: u64)
        requires opening { (K.first ≡ self.now.rows.inner.shared.key.first ∷ [])
            × (K.processes ≡ self.now.rows.inner.shared.key.processes)
            × (K.limit ≡ self.now.rows.inner.shared.key.limit) }
        requires own { seat.old.inner.table_id ≡ self.now.rows.inner.shared.table_id }
        requires place { cell < (four_slots self.now.rows.inner.shared.key.processes).cells }
        requires stored { (v : Process (FourSlotSight T)) × (p : WriterNotes T)
            × HasWriter seat.old.inner.me cell v p × (p.stage ≡ W4)
            × (pair ≡ bit_number p.slot.pair) × MayFinish (plan_of T.plan self.now.rows.inner.shared.key) cell v p }
        ensures own { seat.new.inner.table_id ≡ seat.old.inner.table_id }
        ensures finished { finishes (step self.now.rows.inner.shared.table_id.slots (16 * cell + 8) pair 0 none)
            seat.old.inner.me pair seat.new.inner.me }
        ensures shown { ShowsAll T.plan self.now.rows.inner.shared.key seat.new.inner.me }
    {
        self.rows
            .inner
            .shared
            .store::<Showing<Finishes, FourSlotMechanism, K>>(&mut seat.inner, base(cell), pair);
    }

    /// R1 to R3: takes the slot that has the answer, and tells its number, and whether it isn't `last`, that of the
    /// last answer: else the record is the same. R2's store is left out where `reading` has the pair already.
    #[inline]
    pub(super) fn newest<K: Opening<T>>(
        &self,
        seat: &mut FamilySeat<T>,
        cell: usize,
        last: usize,
    ) -> (usize, bool)
        requires opening { (K.first ≡ self.now.rows.inner.shared.key.first ∷ [])
            × (K.processes ≡ self.now.rows.inner.shared.key.processes)
            × (K.limit ≡ self.now.rows.inner.shared.key.limit) }
        requires own { seat.old.inner.table_id ≡ self.now.rows.inner.shared.table_id }
        requires place { cell < (four_slots self.now.rows.inner.shared.key.processes).cells }
        requires idle { (v : Process (FourSlotSight T)) × (g : ReaderNotes T) × (before : List (ℕ × T))
            × (behind : List (ℕ × T)) × HasReader seat.old.inner.me cell v g
            × (seat.old.inner.me.1
            ≡ before ++ (shift (slot_at cell) (slot_of_choice g.chosen g.at_hand.value) ++ behind)) × (g.stage ≡ R5)
            × (last ≡ number_chosen g.chosen)
            × MayLook (plan_of T.plan self.now.rows.inner.shared.key) cell v g }
        ensures own { seat.new.inner.table_id ≡ seat.old.inner.table_id }
        ensures looked { (v : Process (FourSlotSight T)) (g : ReaderNotes T) → HasReader seat.old.inner.me cell v g →
            HasLooked T.fits T.rises cell v g seat.old.inner.me seat.new.inner.me result.0 result.1 }
        ensures moved { result.1 ≡ true → result.0 ≢ last }
        ensures shown { ShowsAll T.plan self.now.rows.inner.shared.key seat.new.inner.me }
    {
        let pair = self.ask(seat, cell);
        if pair as usize == last / 2 {
            let index = self.take_on::<K>(seat, cell, pair);
            let slot = slot_of(pair, index);
            return (slot, slot != last);
        }
        self.say(seat, cell, pair);
        let index = self.take::<K>(seat, cell, pair);
        (slot_of(pair, index), true)
    }

    /// R1: loads `latest`.
    #[inline]
    fn ask(&self, seat: &mut FamilySeat<T>, cell: usize) -> u64
        requires own { seat.old.inner.table_id ≡ self.now.rows.inner.shared.table_id }
        requires place { cell < (four_slots self.now.rows.inner.shared.key.processes).cells }
        requires idle { (v : Process (FourSlotSight T)) × (g : ReaderNotes T)
            × HasReader seat.old.inner.me cell v g × (g.stage ≡ R5)
            × MayAsk (plan_of T.plan self.now.rows.inner.shared.key) cell v g }
        ensures own { seat.new.inner.table_id ≡ seat.old.inner.table_id }
        ensures asked { asks (step self.now.rows.inner.shared.table_id.slots (16 * cell + 8) 0 0 none)
            seat.old.inner.me result seat.new.inner.me }
    {
        self.rows
            .inner
            .shared
            .load::<Asks>(&mut seat.inner, base(cell))
    }

    /// R2: stores the pair in `reading`, and gives the slot of the read before back.
    #[inline]
    fn say(&self, seat: &mut FamilySeat<T>, cell: usize, pair: u64)
        requires own { seat.old.inner.table_id ≡ self.now.rows.inner.shared.table_id }
        requires place { cell < (four_slots self.now.rows.inner.shared.key.processes).cells }
        requires asked { (v : Process (FourSlotSight T)) × (g : ReaderNotes T) × (before : List (ℕ × T))
            × (behind : List (ℕ × T)) × HasReader seat.old.inner.me cell v g
            × (seat.old.inner.me.1
            ≡ before ++ (shift (slot_at cell) (slot_of_choice g.chosen g.at_hand.value) ++ behind)) × (g.stage ≡ R1)
            × (pair ≡ bit_number g.slot.pair) × MaySayPair (plan_of T.plan self.now.rows.inner.shared.key) cell v g }
        ensures own { seat.new.inner.table_id ≡ seat.old.inner.table_id }
        ensures said { says (step self.now.rows.inner.shared.table_id.slots (16 * cell + 8 + 8) pair 0 none)
            seat.old.inner.me pair seat.new.inner.me }
    {
        self.rows
            .inner
            .shared
            .store::<Says>(&mut seat.inner, base(cell) + 8, pair);
    }

    /// R2 and R3, where `reading` has the pair already: loads the pair's word, gives the slot of the last answer back,
    /// and takes the slot that the word names.
    #[inline]
    fn take_on<K: Opening<T>>(&self, seat: &mut FamilySeat<T>, cell: usize, pair: u64) -> u64
        requires opening { (K.first ≡ self.now.rows.inner.shared.key.first ∷ [])
            × (K.processes ≡ self.now.rows.inner.shared.key.processes)
            × (K.limit ≡ self.now.rows.inner.shared.key.limit) }
        requires own { seat.old.inner.table_id ≡ self.now.rows.inner.shared.table_id }
        requires place { cell < (four_slots self.now.rows.inner.shared.key.processes).cells }
        requires asked { (v : Process (FourSlotSight T)) × (g : ReaderNotes T) × (before : List (ℕ × T))
            × (behind : List (ℕ × T)) × HasReader seat.old.inner.me cell v g
            × (seat.old.inner.me.1
            ≡ before ++ (shift (slot_at cell) (slot_of_choice g.chosen g.at_hand.value) ++ behind)) × (g.stage ≡ R1)
            × (pair ≡ bit_number g.slot.pair) × (pair ≡ word_said g.chosen)
            × MayGet (plan_of T.plan self.now.rows.inner.shared.key) cell v g }
        ensures own { seat.new.inner.table_id ≡ seat.old.inner.table_id }
        ensures taken { takes_on T.fits T.rises
            (step self.now.rows.inner.shared.table_id.slots (16 * cell + 8 + (2 + pair)) 0 0 none) seat.old.inner.me
            result seat.new.inner.me }
        ensures shown { ShowsAll T.plan self.now.rows.inner.shared.key seat.new.inner.me }
    {
        self.rows
            .inner
            .shared
            .load::<Showing<TakesOn, FourSlotMechanism, K>>(
                &mut seat.inner,
                base(cell) + (2 + pair as usize),
            )
    }

    /// R3: loads the pair's word, and takes the slot that it names.
    #[inline]
    fn take<K: Opening<T>>(&self, seat: &mut FamilySeat<T>, cell: usize, pair: u64) -> u64
        requires opening { (K.first ≡ self.now.rows.inner.shared.key.first ∷ [])
            × (K.processes ≡ self.now.rows.inner.shared.key.processes)
            × (K.limit ≡ self.now.rows.inner.shared.key.limit) }
        requires own { seat.old.inner.table_id ≡ self.now.rows.inner.shared.table_id }
        requires place { cell < (four_slots self.now.rows.inner.shared.key.processes).cells }
        requires said { (v : Process (FourSlotSight T)) × (g : ReaderNotes T)
            × HasReader seat.old.inner.me cell v g × (g.stage ≡ R2)
            × (pair ≡ bit_number g.slot.pair) × MayTake (plan_of T.plan self.now.rows.inner.shared.key) cell v g }
        ensures own { seat.new.inner.table_id ≡ seat.old.inner.table_id }
        ensures taken { takes T.fits T.rises
            (step self.now.rows.inner.shared.table_id.slots (16 * cell + 8 + (2 + pair)) 0 0 none) seat.old.inner.me
            result seat.new.inner.me }
        ensures shown { ShowsAll T.plan self.now.rows.inner.shared.key seat.new.inner.me }
    {
        self.rows
            .inner
            .shared
            .load::<Showing<Takes, FourSlotMechanism, K>>(
                &mut seat.inner,
                base(cell) + (2 + pair as usize),
            )
    }

    /// W2 and W3: copies the record into the slot.
    #[inline]
    pub(super) fn fill(&self, seat: &mut FamilySeat<T>, cell: usize, slot: usize, item: &T)
        requires own { seat.old.inner.table_id ≡ self.now.rows.inner.shared.table_id }
        requires place { (cell < (four_slots self.now.rows.inner.shared.key.processes).cells) × (slot < 4) }
        requires held { (x : T) × (cs : List (ℕ × T)) × (seat.old.inner.me.1 ≡ (slot_at cell slot, x) ∷ cs) }
        ensures own { seat.new.inner.table_id ≡ seat.old.inner.table_id }
        ensures filled { (x : T) (cs : List (ℕ × T)) → seat.old.inner.me.1 ≡ (slot_at cell slot, x) ∷ cs →
            seat.new.inner.me ≡ (seat.old.inner.me.0, (slot_at cell slot, item.now) ∷ cs) }
    {
        self.rows.fill(seat, slot_place(cell, slot), item);
    }

    /// R4 and R5: shows the record where it lies.
    #[inline]
    fn show<L: Sees<T>>(&self, seat: &mut FamilySeat<T>, cell: usize, slot: usize, seen: &mut L)
        requires own { seat.old.inner.table_id ≡ self.now.rows.inner.shared.table_id }
        requires place { (cell < (four_slots self.now.rows.inner.shared.key.processes).cells) × (slot < 4) }
        requires held { (x : T) × (cs : List (ℕ × T)) × (seat.old.inner.me.1 ≡ (slot_at cell slot, x) ∷ cs) }
        ensures own { seat.new.inner.table_id ≡ seat.old.inner.table_id }
        ensures same { seat.new.inner.me ≡ seat.old.inner.me }
        ensures shown { (item : T) (cs : List (ℕ × T)) → seat.old.inner.me.1 ≡ (slot_at cell slot, item) ∷ cs →
            L.sees seen.old item seen.new }
    {
        self.rows.show(seat, slot_place(cell, slot), seen);
    }

    /// The same where the record is to be shown; else its slot isn't visited.
    #[inline]
    pub(super) fn show_where<L: Sees<T>>(
        &self,
        seat: &mut FamilySeat<T>,
        cell: usize,
        slot: usize,
        shows: bool,
        seen: &mut L,
    )
        requires own { seat.old.inner.table_id ≡ self.now.rows.inner.shared.table_id }
        requires place { (cell < (four_slots self.now.rows.inner.shared.key.processes).cells) × (slot < 4) }
        requires held { (x : T) × (cs : List (ℕ × T)) × (seat.old.inner.me.1 ≡ (slot_at cell slot, x) ∷ cs) }
        ensures own { seat.new.inner.table_id ≡ seat.old.inner.table_id }
        ensures same { seat.new.inner.me ≡ seat.old.inner.me }
        ensures shown { shows ≡ true → (item : T) (cs : List (ℕ × T)) →
            seat.old.inner.me.1 ≡ (slot_at cell slot, item) ∷ cs → L.sees seen.old item seen.new }
        ensures unshown { shows ≡ false → seen.new ≡ seen.old }
    {
        if shows {
            self.show(seat, cell, slot, seen);
        }
    }
}
