//! The table of a four-slot cell and every step on it. No other module can reach the table: what stands here is
//! all that can be done with it. A step on a word is one function, whose `Play` tells the seat's view what it did
//! and raises the pass's count.
ghost use Rattle.std.specs.Prelude.{◌≡◌, ℕ, ◌+◌, [], ◌∷◌, IfOk};
ghost use Rattle.std.specs.Fn.{FnOnceTakesAt, FnOnceReturnsAt};
ghost use mathlib.Core.Option.{none};
ghost use Rattle.std.specs.declared.snapshot.Snapshot.{Snapshot};
ghost use Rattle.atomic_table.specs.Table.{step};
ghost use Rattle.four_slot_core.specs.declared.state.Stage.TheVariants.{W3, W4, W5};
ghost use Rattle.four_slot_core.specs.declared.state.ReaderStage.TheVariants.{R1, R2, R5};
ghost use Rattle.four_slot_core.specs.Events.{bit_number, slot_number};
ghost use Rattle.cell_contract.specs.Running.{last_or, Settled, held_slots};
ghost use Rattle.cell_contract.specs.Sights.{writer_part, reader_part};
ghost use Rattle.cell_four_slot.specs.Steps.{begins, stores_on, publishes, finishes, asks_on, announces};
ghost use Rattle.cell_four_slot.specs.Steps.{says, takes, first_sight};
ghost use Rattle.cell_four_slot.specs.Steps.{receipt_for, hears_of};
ghost use Rattle.cell_four_slot.specs.Steps.{whole_of, slot_of_choice, word_said};
ghost use Rattle.cell_four_slot.specs.Rule.{IsTimed};
ghost use Rattle.cell_contract.specs.Intervals.{AreFirst};
ghost use Rattle.cell_contract.specs.declared.times.Dated.{Dated};
ghost use Rattle.cell_four_slot.specs.declared.notes.WriterNotes.{WriterNotes};
ghost use Rattle.cell_four_slot.specs.declared.notes.ReaderNotes.{ReaderNotes};
ghost use Rattle.cell_contract.specs.declared.sight.Sight.TheVariants.{Writer, Reader, Told, Both};

use crate::bits::word_of;
use crate::cell::FourSlot;
use crate::notes::FourSlotSight;
use crate::plays::{Asks, Begins, Ends, Finishes, Hears, Item, Says, Stores, Takes, Tells};
use atomic_table::{Seat, Table};
use cell_contract::{Lawful, Lays, Parts, empty};
use std::alloc::{AllocError, Global};
use std::snapshot::Snapshot;

/// Four words of one bit and four slots. Word 8 is `latest`, words 10 and 11 are the pairs' bits, and word 24 is
/// `reading`; the others keep the two sides' words apart.
#[derive(Drop)]
pub struct FourSlotTable<T: Lawful> {
    inner: Table<T, FourSlotSight<T>, T, FourSlot, Global>,
    ghost sized: { inner.shared.table_id.words ≡ 32 },
}

/// A seat at the table.
#[derive(Drop)]
pub struct FourSlotSeat<T: Copy> {
    inner: Seat<T, FourSlotSight<T>>,
}

impl<T: Lawful> FourSlotTable<T> {
    /// A table with the record in each slot, and its first seat.
    pub(crate) fn new(alloc: Global, first: &T) -> Result<(Self, FourSlotSeat<T>), AllocError>
        requires { T.fits first.now }
        ensures key { IfOk result (λ r. r.0.inner.shared.key ≡ first.now) }
        ensures seat { IfOk result (λ r. (r.1.inner.table_id ≡ r.0.inner.shared.table_id)
            × (r.1.inner.me ≡ (first_sight first.now, []))) }
    {
        let mut slots = Vec::new(alloc);
        slots.push(*first).map_err(|_| AllocError)?;
        slots.push(*first).map_err(|_| AllocError)?;
        slots.push(*first).map_err(|_| AllocError)?;
        slots.push(*first).map_err(|_| AllocError)?;
        let (table, seat) = Table::new(alloc, &[0; 32], slots, first).map_err(|_| AllocError)?;
        Ok((FourSlotTable { inner: table }, FourSlotSeat { inner: seat }))
    }

    /// Parts the reader's seat off the first one.
    pub(crate) fn part(&self, seat: &mut FourSlotSeat<T>) -> FourSlotSeat<T>
        requires own { seat.old.inner.table_id ≡ self.now.inner.shared.table_id }
        requires whole { (p : WriterNotes T) × (g : ReaderNotes T) × (seat.old.inner.me.0 ≡ Both p g) }
        ensures own { (seat.new.inner.table_id ≡ seat.old.inner.table_id)
            × (result.inner.table_id ≡ seat.old.inner.table_id) }
        ensures parted { (seat.new.inner.me ≡ (writer_part seat.old.inner.me.0, seat.old.inner.me.1))
            × (result.inner.me ≡ (reader_part seat.old.inner.me.0, [])) }
    {
        let parted = self.inner.shared.split_seat::<Parts>(&mut seat.inner);
        FourSlotSeat { inner: parted }
    }

    /// Parts a receipt off the writer's seat.
    pub(crate) fn tell(&self, seat: &mut FourSlotSeat<T>) -> FourSlotSeat<T>
        requires own { seat.old.inner.table_id ≡ self.now.inner.shared.table_id }
        requires idle { (p : WriterNotes T) × (seat.old.inner.me.0 ≡ Writer p) × (p.stage ≡ W5) }
        ensures own { (seat.new.inner.table_id ≡ seat.old.inner.table_id)
            × (result.inner.table_id ≡ seat.old.inner.table_id) }
        ensures parted { (seat.new.inner.me ≡ seat.old.inner.me)
            × (result.inner.me ≡ (receipt_for seat.old.inner.me.0, [])) }
    {
        let parted = self.inner.shared.split_seat::<Tells>(&mut seat.inner);
        FourSlotSeat { inner: parted }
    }

    /// Joins a receipt into the reader's seat.
    pub(crate) fn hear(&self, seat: &mut FourSlotSeat<T>, receipt: FourSlotSeat<T>)
        requires own { (seat.old.inner.table_id ≡ self.now.inner.shared.table_id)
            × (receipt.inner.table_id ≡ self.now.inner.shared.table_id) }
        requires idle { (g : ReaderNotes T) × (seat.old.inner.me.0 ≡ Reader g) × (g.stage ≡ R5) }
        requires receipt { (x : Snapshot (Dated T)) × (receipt.inner.me ≡ (Told x, [])) }
        ensures own { seat.new.inner.table_id ≡ seat.old.inner.table_id }
        ensures joined { seat.new.inner.me ≡ (hears_of seat.old.inner.me.0 receipt.inner.me.0, seat.old.inner.me.1) }
    {
        let FourSlotSeat { inner: receipt } = receipt;
        self.inner
            .shared
            .join_seat::<Hears>(&mut seat.inner, receipt);
    }

    /// Joins the reader's seat, which has no slot, into the writer's.
    pub(crate) fn end(&self, seat: &mut FourSlotSeat<T>, reader: FourSlotSeat<T>)
        requires own { (seat.old.inner.table_id ≡ self.now.inner.shared.table_id)
            × (reader.inner.table_id ≡ self.now.inner.shared.table_id) }
        requires writer { (p : WriterNotes T) × (seat.old.inner.me.0 ≡ Writer p) }
        requires reader { (g : ReaderNotes T) × (reader.inner.me ≡ (Reader g, [])) }
        ensures own { seat.new.inner.table_id ≡ seat.old.inner.table_id }
        ensures joined { seat.new.inner.me ≡ (whole_of seat.old.inner.me.0 reader.inner.me.0, seat.old.inner.me.1) }
    {
        let FourSlotSeat { inner: reader } = reader;
        self.inner.shared.join_seat::<Ends>(&mut seat.inner, reader);
    }

    /// Frees the table. Here the seat's two lists meet.
    pub(crate) fn close(self, seat: FourSlotSeat<T>)
        requires { seat.inner.table_id ≡ self.inner.shared.table_id }
        ensures settled { (p : WriterNotes T) (g : ReaderNotes T) → seat.inner.me.0 ≡ Both p g →
            Settled (self.inner.shared.key ∷ p.written) g.answers }
        ensures timed { (p : WriterNotes T) (g : ReaderNotes T) → seat.inner.me.0 ≡ Both p g →
            (now : ℕ) × (shown : ℕ) × (pair : ℕ) × IsTimed self.inner.shared.key p g now p.stage g.stage shown pair }
        ensures known { (p : WriterNotes T) (g : ReaderNotes T) → seat.inner.me.0 ≡ Both p g →
            AreFirst g.known p.written p.times }
    {
        let FourSlotTable { inner: table } = self;
        let FourSlotSeat { inner: seat } = seat;
        empty(table.close_with(seat));
    }

    /// W1: loads `reading`, and takes the slot. The item has no bytes here: the view is told of it.
    #[inline]
    pub(crate) fn begin<K: Item<T>>(&self, seat: &mut FourSlotSeat<T>, item: Snapshot<T>) -> u64
        requires own { seat.old.inner.table_id ≡ self.now.inner.shared.table_id }
        requires item { K.item ≡ item.value ∷ [] }
        requires idle { (p : WriterNotes T) × (seat.old.inner.me ≡ (Writer p, [])) × (p.stage ≡ W5) × T.fits item.value
            × T.rises (last_or p.opening.value p.written) item.value }
        ensures own { seat.new.inner.table_id ≡ seat.old.inner.table_id }
        ensures begun { begins K.item (step self.now.inner.shared.table_id.slots 24 0 0 none)
            seat.old.inner.me result seat.new.inner.me }
    {
        self.inner.shared.load::<Begins<K>>(&mut seat.inner, 24)
    }

    /// W4 and W5. W5's store is left out where `latest` has the pair already, which is `shown`.
    #[inline]
    pub(crate) fn publish(&self, seat: &mut FourSlotSeat<T>, pair: u64, index: u64, shown: u64)
        requires own { seat.old.inner.table_id ≡ self.now.inner.shared.table_id }
        requires filled { (p : WriterNotes T)
            × (seat.old.inner.me ≡ (Writer p, (slot_number p.slot, p.item.value) ∷ [])) × (p.stage ≡ W3)
            × (pair ≡ bit_number p.slot.pair) × (index ≡ bit_number p.slot.index) × (shown ≡ bit_number p.latest) }
        ensures own { seat.new.inner.table_id ≡ seat.old.inner.table_id }
        ensures published { publishes seat.old.inner.me seat.new.inner.me }
    {
        let word = word_of(pair);
        self.store(seat, word, index);
        if pair == shown {
            return;
        }
        self.finish(seat, pair);
    }

    /// W4: stores the index in the pair's word, and gives the slot back. This is W5 too where
    /// `latest` has the pair already.
    #[inline]
    fn store(&self, seat: &mut FourSlotSeat<T>, word: usize, index: u64)
        requires own { seat.old.inner.table_id ≡ self.now.inner.shared.table_id }
        requires filled { (p : WriterNotes T)
            × (seat.old.inner.me ≡ (Writer p, (slot_number p.slot, p.item.value) ∷ [])) × (p.stage ≡ W3)
            × (word ≡ 10 + bit_number p.slot.pair) × (index ≡ bit_number p.slot.index) }
        ensures own { seat.new.inner.table_id ≡ seat.old.inner.table_id }
        ensures stored { stores_on (step self.now.inner.shared.table_id.slots word index 0 none)
            seat.old.inner.me index seat.new.inner.me }
    {
        self.inner
            .shared
            .store::<Stores>(&mut seat.inner, word, index);
    }

    /// W5: stores the pair in `latest`.
    #[inline]
    fn finish(&self, seat: &mut FourSlotSeat<T>, pair: u64)
        requires own { seat.old.inner.table_id ≡ self.now.inner.shared.table_id }
        requires stored { (p : WriterNotes T) × (seat.old.inner.me.0 ≡ Writer p) × (p.stage ≡ W4)
            × (pair ≡ bit_number p.slot.pair) }
        ensures own { seat.new.inner.table_id ≡ seat.old.inner.table_id }
        ensures finished { finishes (step self.now.inner.shared.table_id.slots 8 pair 0 none)
            seat.old.inner.me pair seat.new.inner.me }
    {
        self.inner
            .shared
            .store::<Finishes>(&mut seat.inner, 8, pair);
    }

    /// R1 and R2. R2's store is left out where `reading` has the pair already, which is `said`.
    #[inline]
    pub(crate) fn announce(&self, seat: &mut FourSlotSeat<T>, said: u64) -> u64
        requires own { seat.old.inner.table_id ≡ self.now.inner.shared.table_id }
        requires idle { (g : ReaderNotes T)
            × (seat.old.inner.me ≡ (Reader g, slot_of_choice g.chosen g.at_hand.value)) × (g.stage ≡ R5)
            × (said ≡ word_said g.chosen) }
        ensures own { seat.new.inner.table_id ≡ seat.old.inner.table_id }
        ensures announced { announces seat.old.inner.me result seat.new.inner.me }
    {
        let pair = self.ask(seat);
        if pair == said {
            return pair;
        }
        self.say(seat, pair);
        pair
    }

    /// R1: loads `latest`. This is R2 too where `reading` has the pair already.
    #[inline]
    fn ask(&self, seat: &mut FourSlotSeat<T>) -> u64
        requires own { seat.old.inner.table_id ≡ self.now.inner.shared.table_id }
        requires idle { (g : ReaderNotes T) × (seat.old.inner.me ≡ (Reader g, slot_of_choice g.chosen g.at_hand.value))
            × (g.stage ≡ R5) }
        ensures own { seat.new.inner.table_id ≡ seat.old.inner.table_id }
        ensures asked { asks_on (step self.now.inner.shared.table_id.slots 8 0 0 none)
            seat.old.inner.me result seat.new.inner.me }
    {
        self.inner.shared.load::<Asks>(&mut seat.inner, 8)
    }

    /// R2: stores the pair in `reading`, and gives the slot of the read before back.
    #[inline]
    fn say(&self, seat: &mut FourSlotSeat<T>, pair: u64)
        requires own { seat.old.inner.table_id ≡ self.now.inner.shared.table_id }
        requires asked { (g : ReaderNotes T)
            × (seat.old.inner.me ≡ (Reader g, slot_of_choice g.chosen g.at_hand.value)) × (g.stage ≡ R1)
            × (pair ≡ bit_number g.slot.pair) }
        ensures own { seat.new.inner.table_id ≡ seat.old.inner.table_id }
        ensures said { says (step self.now.inner.shared.table_id.slots 24 pair 0 none)
            seat.old.inner.me pair seat.new.inner.me }
    {
        self.inner.shared.store::<Says>(&mut seat.inner, 24, pair);
    }

    /// R3: loads the pair's word, and takes the slot that it names.
    #[inline]
    pub(crate) fn take(&self, seat: &mut FourSlotSeat<T>, word: usize) -> u64
        requires own { seat.old.inner.table_id ≡ self.now.inner.shared.table_id }
        requires said { (g : ReaderNotes T) × (seat.old.inner.me ≡ (Reader g, [])) × (g.stage ≡ R2)
            × (word ≡ 10 + bit_number g.slot.pair) }
        ensures own { seat.new.inner.table_id ≡ seat.old.inner.table_id }
        ensures taken { takes T.fits T.rises (step self.now.inner.shared.table_id.slots word 0 0 none) seat.old.inner.me
            result seat.new.inner.me }
    {
        self.inner.shared.load::<Takes>(&mut seat.inner, word)
    }

    /// W2 and W3: copies the record into the slot.
    #[inline]
    pub(crate) fn fill<L: Lays<T>>(&self, seat: &mut FourSlotSeat<T>, slot: usize, parts: &L)
        requires own { seat.old.inner.table_id ≡ self.now.inner.shared.table_id }
        requires held { held_slots seat.old.inner.me.1 ≡ slot ∷ [] }
        ensures own { seat.new.inner.table_id ≡ seat.old.inner.table_id }
        ensures filled { seat.new.inner.me ≡ (seat.old.inner.me.0, (slot, L.whole parts.now) ∷ []) }
    {
        parts.lay(seat.inner.slot_mut(&self.inner.shared, slot));
    }

    /// R4 and R5: copies the record out of the slot, and writes nothing to it.
    #[inline]
    pub(crate) fn copy(&self, seat: &mut FourSlotSeat<T>, slot: usize) -> T
        requires own { seat.old.inner.table_id ≡ self.now.inner.shared.table_id }
        requires held { held_slots seat.old.inner.me.1 ≡ slot ∷ [] }
        ensures own { seat.new.inner.table_id ≡ seat.old.inner.table_id }
        ensures same { seat.new.inner.me ≡ seat.old.inner.me }
        ensures copied { seat.old.inner.me.1 ≡ (slot, result) ∷ [] }
    {
        *seat.inner.slot_mut(&self.inner.shared, slot)
    }

    /// R4 and R5 too: lends the record where it lies.
    #[inline]
    pub(crate) fn lend<R, F: FnOnce(&T) -> R>(
        &self,
        seat: &mut FourSlotSeat<T>,
        slot: usize,
        look: F,
    ) -> R
        requires own { seat.old.inner.table_id ≡ self.now.inner.shared.table_id }
        requires held { held_slots seat.old.inner.me.1 ≡ slot ∷ [] }
        requires callable { (x : T) → seat.old.inner.me.1 ≡ (slot, x) ∷ [] → FnOnceTakesAt F.FnOnce look x }
        ensures own { seat.new.inner.table_id ≡ seat.old.inner.table_id }
        ensures same { seat.new.inner.me ≡ seat.old.inner.me }
        ensures seen { (item : T) × (seat.old.inner.me.1 ≡ (slot, item) ∷ [])
            × FnOnceReturnsAt F.FnOnce look item result }
    {
        look(&*seat.inner.slot_mut(&self.inner.shared, slot))
    }
}
