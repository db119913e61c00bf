//! The table of a triple buffer and every step on it. No other module can reach the table: what stands here is all
//! that can be done with it. A step on the word is one function, whose `Play` tells the seat's view what it did
//! and raises the pass's count.
ghost use Rattle.std.specs.Prelude.{◌≡◌, ℕ, ◌+◌, [], ◌∷◌, IfOk};
ghost use Rattle.std.specs.Fn.{FnOnceTakesAt, FnOnceReturnsAt};
ghost use mathlib.Core.Option.{none};
ghost use Rattle.std.specs.declared.snapshot.Snapshot.{Snapshot};
ghost use Rattle.atomic_table.specs.Table.{step};
ghost use Rattle.cell_contract.specs.Running.{last_or, Settled, held_slots};
ghost use Rattle.cell_contract.specs.Sights.{writer_part, reader_part};
ghost use Rattle.cell_triple.specs.Steps.{put_took, get_took, put_swapped, looked, get_swapped};
ghost use Rattle.cell_triple.specs.Steps.{first_sight, receipt_for, hears_of};
ghost use Rattle.cell_triple.specs.Steps.{whole_of};
ghost use Rattle.cell_triple.specs.Rule.{IsTimed};
ghost use Rattle.cell_contract.specs.Intervals.{AreFirst};
ghost use Rattle.cell_contract.specs.declared.times.Dated.{Dated};
ghost use Rattle.cell_triple.specs.declared.notes.WriterNotes.{WriterNotes};
ghost use Rattle.cell_triple.specs.declared.notes.ReaderNotes.{ReaderNotes};
ghost use Rattle.cell_contract.specs.declared.sight.Sight.TheVariants.{Spent, Writer, Reader, Told, Both};

use crate::cell::Triple;
use crate::notes::TripleSight;
use crate::plays::{Ends, GetSwaps, GetTakes, Hears, Looks, PutSwaps, PutTakes, Tells, Yields};
use atomic_table::{Seat, Table};
use cell_contract::{Lawful, Lays, Parts, empty};
use std::alloc::{AllocError, Global};

/// One word and three slots.
#[derive(Drop)]
pub struct TripleTable<T: Lawful> {
    inner: Table<T, TripleSight<T>, T, Triple, Global>,
    ghost sized: { inner.shared.table_id.words ≡ 1 },
}

/// A seat at the table.
#[derive(Drop)]
pub struct TripleSeat<T: Copy> {
    inner: Seat<T, TripleSight<T>>,
}

impl<T: Lawful> TripleTable<T> {
    /// A table with the record in each slot, and its first seat.
    pub(crate) fn new(alloc: Global, first: &T) -> Result<(Self, TripleSeat<T>), AllocError>
        requires { T.fits first.now }
        ensures key { IfOk result (λ r. r.0.inner.shared.key ≡ first.now) }
        ensures seat { IfOk result (λ r. (r.1.inner.table_id ≡ r.0.inner.shared.table_id)
            × (r.1.inner.me ≡ (first_sight first.now, []))) }
    {
        let mut slots = Vec::new(alloc);
        slots.push(*first).map_err(|_| AllocError)?;
        slots.push(*first).map_err(|_| AllocError)?;
        slots.push(*first).map_err(|_| AllocError)?;
        let (table, seat) = Table::new(alloc, &[1], slots, first).map_err(|_| AllocError)?;
        Ok((TripleTable { inner: table }, TripleSeat { inner: seat }))
    }

    /// Parts the reader's seat off the first one.
    pub(crate) fn part(&self, seat: &mut TripleSeat<T>) -> TripleSeat<T>
        requires own { seat.old.inner.table_id ≡ self.now.inner.shared.table_id }
        requires whole { (p : WriterNotes T) × (g : ReaderNotes T) × (seat.old.inner.me.0 ≡ Both p g) }
        ensures own { (seat.new.inner.table_id ≡ seat.old.inner.table_id)
            × (result.inner.table_id ≡ seat.old.inner.table_id) }
        ensures parted { (seat.new.inner.me ≡ (writer_part seat.old.inner.me.0, seat.old.inner.me.1))
            × (result.inner.me ≡ (reader_part seat.old.inner.me.0, [])) }
    {
        let parted = self.inner.shared.split_seat::<Parts>(&mut seat.inner);
        TripleSeat { inner: parted }
    }

    /// Parts a receipt off the writer's seat.
    pub(crate) fn tell(&self, seat: &mut TripleSeat<T>) -> TripleSeat<T>
        requires own { seat.old.inner.table_id ≡ self.now.inner.shared.table_id }
        requires writer { (p : WriterNotes T) × (seat.old.inner.me.0 ≡ Writer p) }
        ensures own { (seat.new.inner.table_id ≡ seat.old.inner.table_id)
            × (result.inner.table_id ≡ seat.old.inner.table_id) }
        ensures parted { (seat.new.inner.me ≡ seat.old.inner.me)
            × (result.inner.me ≡ (receipt_for seat.old.inner.me.0, [])) }
    {
        let parted = self.inner.shared.split_seat::<Tells>(&mut seat.inner);
        TripleSeat { inner: parted }
    }

    /// Parts the writer's notes off its seat, which keeps its slot.
    pub(crate) fn yield_notes(&self, seat: &mut TripleSeat<T>) -> TripleSeat<T>
        requires own { seat.old.inner.table_id ≡ self.now.inner.shared.table_id }
        requires writer { (p : WriterNotes T) × (seat.old.inner.me.0 ≡ Writer p) }
        ensures own { result.inner.table_id ≡ seat.old.inner.table_id }
        ensures parted { result.inner.me ≡ (seat.old.inner.me.0, []) }
    {
        let parted = self.inner.shared.split_seat::<Yields>(&mut seat.inner);
        TripleSeat { inner: parted }
    }

    /// Joins a receipt into the reader's seat.
    pub(crate) fn hear(&self, seat: &mut TripleSeat<T>, receipt: TripleSeat<T>)
        requires own { (seat.old.inner.table_id ≡ self.now.inner.shared.table_id)
            × (receipt.inner.table_id ≡ self.now.inner.shared.table_id) }
        requires reader { (g : ReaderNotes T) × (seat.old.inner.me.0 ≡ Reader g) }
        requires receipt { (x : Snapshot (Dated T)) × (receipt.inner.me ≡ (Told x, [])) }
        ensures own { seat.new.inner.table_id ≡ seat.old.inner.table_id }
        ensures joined { seat.new.inner.me ≡ (hears_of seat.old.inner.me.0 receipt.inner.me.0, seat.old.inner.me.1) }
    {
        let TripleSeat { inner: receipt } = receipt;
        self.inner
            .shared
            .join_seat::<Hears>(&mut seat.inner, receipt);
    }

    /// Joins the writer's notes into the reader's seat.
    pub(crate) fn end(&self, seat: &mut TripleSeat<T>, notes: TripleSeat<T>)
        requires own { (seat.old.inner.table_id ≡ self.now.inner.shared.table_id)
            × (notes.inner.table_id ≡ self.now.inner.shared.table_id) }
        requires reader { (g : ReaderNotes T) × (seat.old.inner.me.0 ≡ Reader g) }
        requires writer { (p : WriterNotes T) × (notes.inner.me ≡ (Writer p, [])) }
        ensures own { seat.new.inner.table_id ≡ seat.old.inner.table_id }
        ensures joined { seat.new.inner.me ≡ (whole_of seat.old.inner.me.0 notes.inner.me.0, seat.old.inner.me.1) }
    {
        let TripleSeat { inner: notes } = notes;
        self.inner.shared.join_seat::<Ends>(&mut seat.inner, notes);
    }

    /// Frees the table. Here the seat's two lists meet.
    pub(crate) fn close(self, seat: TripleSeat<T>)
        requires { seat.inner.table_id ≡ self.inner.shared.table_id }
        ensures settled { (p : WriterNotes T) (g : ReaderNotes T) → seat.inner.me.0 ≡ Both p g →
            Settled (self.inner.shared.key ∷ p.written) g.answers }
        ensures timed { (p : WriterNotes T) (g : ReaderNotes T) → seat.inner.me.0 ≡ Both p g →
            (now : ℕ) × IsTimed self.inner.shared.key p g now }
        ensures known { (p : WriterNotes T) (g : ReaderNotes T) → seat.inner.me.0 ≡ Both p g →
            AreFirst g.known p.written p.times }
    {
        let TripleTable { inner: table } = self;
        let TripleSeat { inner: seat } = seat;
        empty(table.close_with(seat));
    }

    /// A load of the word, with which the writer takes its first slot.
    pub(crate) fn take_put(&self, seat: &mut TripleSeat<T>)
        requires own { seat.old.inner.table_id ≡ self.now.inner.shared.table_id }
        requires bare { (p : WriterNotes T) × (seat.old.inner.me ≡ (Writer p, [])) × (p.has ≡ 0) }
        ensures own { seat.new.inner.table_id ≡ seat.old.inner.table_id }
        ensures taken { (p : WriterNotes T) → seat.old.inner.me.0 ≡ Writer p →
            seat.new.inner.me ≡ (Writer (record p { has = 1 }), (p.slot, p.opening.value) ∷ []) }
    {
        self.inner.shared.load::<PutTakes>(&mut seat.inner, 0);
    }

    /// A load of the word, with which the reader takes its first slot.
    pub(crate) fn take_get(&self, seat: &mut TripleSeat<T>)
        requires own { seat.old.inner.table_id ≡ self.now.inner.shared.table_id }
        requires bare { (g : ReaderNotes T) × (seat.old.inner.me ≡ (Reader g, [])) × (g.has ≡ 0) }
        ensures own { seat.new.inner.table_id ≡ seat.old.inner.table_id }
        ensures taken { (g : ReaderNotes T) → seat.old.inner.me.0 ≡ Reader g →
            seat.new.inner.me ≡ (Reader (record g { has = 1 }), (g.slot, g.at_hand.value) ∷ []) }
    {
        self.inner.shared.load::<GetTakes>(&mut seat.inner, 0);
    }

    /// The writer's swap: its slot goes into the middle, with the mark, and it takes the slot that was there.
    #[inline]
    pub(crate) fn publish(&self, seat: &mut TripleSeat<T>, new: u64) -> u64
        requires own { seat.old.inner.table_id ≡ self.now.inner.shared.table_id }
        requires filled { (p : WriterNotes T) × (x : T) × (seat.old.inner.me ≡ (Writer p, (p.slot, x) ∷ []))
            × (p.has ≡ 1) × T.fits x × T.rises (last_or p.opening.value p.written) x × (new ≡ p.slot + 4) }
        ensures own { seat.new.inner.table_id ≡ seat.old.inner.table_id }
        ensures swapped { put_swapped (step self.now.inner.shared.table_id.slots 0 new 0 none)
            seat.old.inner.me result seat.new.inner.me }
    {
        self.inner.shared.swap::<PutSwaps>(&mut seat.inner, 0, new)
    }

    /// The reader's load.
    #[inline]
    pub(crate) fn look(&self, seat: &mut TripleSeat<T>) -> u64
        requires own { seat.old.inner.table_id ≡ self.now.inner.shared.table_id }
        requires idle { (g : ReaderNotes T) × (seat.old.inner.me.0 ≡ Reader g) × (g.asked ≡ 0) }
        ensures own { seat.new.inner.table_id ≡ seat.old.inner.table_id }
        ensures looked { looked T.fits T.rises (step self.now.inner.shared.table_id.slots 0 0 0 none) seat.old.inner.me
            result seat.new.inner.me }
    {
        self.inner.shared.load::<Looks>(&mut seat.inner, 0)
    }

    /// The reader's swap, where its load found the mark: its slot goes into the middle, and it
    /// takes the slot that was there.
    #[inline]
    pub(crate) fn fetch(&self, seat: &mut TripleSeat<T>, new: u64) -> u64
        requires own { seat.old.inner.table_id ≡ self.now.inner.shared.table_id }
        requires marked { (g : ReaderNotes T)
            × (seat.old.inner.me ≡ (Reader g, (g.slot, g.at_hand.value) ∷ [])) × (g.has ≡ 1)
            × (g.asked ≡ 1) × (new ≡ g.slot) }
        ensures own { seat.new.inner.table_id ≡ seat.old.inner.table_id }
        ensures swapped { get_swapped T.fits T.rises
            (step self.now.inner.shared.table_id.slots 0 new 0 none) seat.old.inner.me result seat.new.inner.me }
    {
        self.inner.shared.swap::<GetSwaps>(&mut seat.inner, 0, new)
    }

    /// Copies the record into the slot.
    #[inline]
    pub(crate) fn fill<L: Lays<T>>(&self, seat: &mut TripleSeat<T>, slot: usize, parts: &L)
        requires own { seat.old.inner.table_id ≡ self.now.inner.shared.table_id }
        requires held { held_slots seat.old.inner.me.1 ≡ slot ∷ [] }
        ensures own { seat.new.inner.table_id ≡ seat.old.inner.table_id }
        ensures filled { seat.new.inner.me ≡ (seat.old.inner.me.0, (slot, L.whole parts.now) ∷ []) }
    {
        parts.lay(seat.inner.slot_mut(&self.inner.shared, slot));
    }

    /// Copies the record out of the slot, and writes nothing to it.
    #[inline]
    pub(crate) fn copy(&self, seat: &mut TripleSeat<T>, slot: usize) -> T
        requires own { seat.old.inner.table_id ≡ self.now.inner.shared.table_id }
        requires held { held_slots seat.old.inner.me.1 ≡ slot ∷ [] }
        ensures own { seat.new.inner.table_id ≡ seat.old.inner.table_id }
        ensures same { seat.new.inner.me ≡ seat.old.inner.me }
        ensures copied { seat.old.inner.me.1 ≡ (slot, result) ∷ [] }
    {
        *seat.inner.slot_mut(&self.inner.shared, slot)
    }

    /// Lends the record where it lies.
    #[inline]
    pub(crate) fn lend<R, F: FnOnce(&T) -> R>(
        &self,
        seat: &mut TripleSeat<T>,
        slot: usize,
        look: F,
    ) -> R
        requires own { seat.old.inner.table_id ≡ self.now.inner.shared.table_id }
        requires held { held_slots seat.old.inner.me.1 ≡ slot ∷ [] }
        requires callable { (x : T) → seat.old.inner.me.1 ≡ (slot, x) ∷ [] → FnOnceTakesAt F.FnOnce look x }
        ensures own { seat.new.inner.table_id ≡ seat.old.inner.table_id }
        ensures same { seat.new.inner.me ≡ seat.old.inner.me }
        ensures seen { (item : T) × (seat.old.inner.me.1 ≡ (slot, item) ∷ [])
            × FnOnceReturnsAt F.FnOnce look item result }
    {
        look(&*seat.inner.slot_mut(&self.inner.shared, slot))
    }
}

impl<T: Lawful> TripleSeat<T> {
    ghost use Rattle.std.specs.Borrow.{sem, Lends};
    ghost use Rattle.cell_triple.specs.Lent.{seat_with};
    ghost use Rattle.cell_triple.specs.contracts.table.TripleSeat.{the_row};

    /// Lends the slot for as long as the seat is lent. The seat ends with what is left in it.
    #[inline]
    pub(crate) fn place<'a>(&'a mut self, table: &'a TripleTable<T>, slot: usize) -> &'a mut T
        requires own { self.old.inner.table_id ≡ table.now.inner.shared.table_id }
        requires held { held_slots self.old.inner.me.1 ≡ slot ∷ [] }
        ensures* lent { sem 𝓛 (Lends (the_row T.row) T.row self.entry result (seat_with self.old slot)) }
        ensures value { self.old.inner.me.1 ≡ (slot, result.now) ∷ [] }
    {
        self.inner.slot_mut(&table.inner.shared, slot)
    }
}
