//! The table of a family of triple buffers and every step of the mechanism on it. No other module of this crate steps
//! on the table but by what stands here, and by what is so of any family's table.
ghost use Rattle.std.specs.Prelude.{◌≡◌, ℕ, ◌+◌, ◌*◌, ◌-◌, ◌<◌, ◌≤◌, List, [], ◌∷◌, IfOk};
ghost use Rattle.cell_contract.specs.Plans.{Doings, HasNoSteps};
ghost use mathlib.Core.Option.{none};
ghost use Rattle.atomic_table.specs.Table.{step, turned};
ghost use Rattle.cell_contract.specs.Running.{last_or};
ghost use Rattle.cell_triple.specs.declared.notes.WriterNotes.{WriterNotes};
ghost use Rattle.cell_triple.specs.declared.notes.ReaderNotes.{ReaderNotes};
ghost use Rattle.cell_triple.specs.Steps.{TripleSight, hears_of, receipt_for};
ghost use Rattle.family_table.specs.declared.notes.Process.{Process};
ghost use Rattle.family_triple.specs.Places.{triples, slot_at};
ghost use Rattle.family_triple.specs.Plans.{plan_of, MayPublish, MayDecide, ShowsAll};
ghost use Rattle.family_triple.specs.Triples.{first_view};
ghost use Rattle.family_triple.specs.Steps.{put_takes, get_takes, publishes, looks, fetches};
ghost use Rattle.family_triple.specs.Tables.{HasWriter, HasReader, IsEnded};

use crate::mechanism::TripleMechanism;
use crate::plays::{Fetches, GetTakes, Looks, Publishes, PutTakes};
use cell_contract::{Planned, Sees};
use cell_triple::TripleSight;
use family_table::notes::Opening;
use family_table::plays::Showing;
use family_table::table::Rows;
use std::alloc::{AllocError, Global};

/// The words and slots of all cells. Eight words that nobody stores to come first, and last a word of each process, in
/// which it says its tags.
#[derive(Drop)]
pub struct FamilyTable<T: Planned> {
    pub(crate) rows: Rows<T, TripleSight<T>, TripleMechanism>,
    ghost sized: { rows.inner.shared.table_id.words
        ≡ (triples rows.inner.shared.key.processes).words + 8 * rows.inner.shared.key.processes },
}

/// A seat at the table.
pub type FamilySeat<T> = family_table::table::FamilySeat<T, TripleSight<T>>;

/// The word of a cell.
#[inline]
fn word_of(cell: usize) -> usize
    requires { cell < 256 }
    ensures { result ≡ 8 * cell + 8 }
{
    8 * cell + 8
}

/// How many words come before those of tags.
#[inline]
pub(super) fn words_of_cells(processes: usize) -> usize
    requires { processes ≤ 16 }
    ensures { (result ≡ (triples processes).words) × (result ≤ 4104) }
{
    8 * (processes * processes) + 8
}

/// The place of a cell's slot.
#[inline]
pub(super) fn slot_place(cell: usize, slot: u64) -> usize
    requires { (cell < 256) × (slot < 3) }
    ensures { result ≡ slot_at cell slot }
{
    3 * cell + slot as usize
}

impl<T: Planned> FamilyTable<T> {
    /// A table of the cells of so many processes, which all hold this record, and a seat that has all processes.
    /// The records' plan alone speaks of the limit.
    pub fn new(
        alloc: Global,
        processes: usize,
        limit: u64,
        first: T,
    ) -> Result<(Self, FamilySeat<T>), AllocError>
        requires lawful { T.fits first }
        requires some { (2 ≤ processes) × (processes ≤ 16) }
        requires plan { (i : ℕ) (done : Doings T) → i < processes → HasNoSteps done →
            T.plan first 1 processes limit i done }
        ensures key { IfOk result (λ r.
            r.0.rows.inner.shared.key ≡ record { first = first; processes = processes; limit = limit }) }
        ensures seat { IfOk result (λ r. (r.1.inner.table_id ≡ r.0.rows.inner.shared.table_id)
            × (r.1.inner.me ≡ (first_view first processes, []))) }
    {
        let (rows, seat) = Rows::new(alloc, processes, limit, first, 8, 1, 3)?;
        Ok((FamilyTable { rows }, seat))
    }

    /// A load of a cell's word, with which its writer takes its first slot.
    pub(super) fn take_put(&self, seat: &mut FamilySeat<T>, cell: usize) -> u64
        requires own { seat.old.inner.table_id ≡ self.now.rows.inner.shared.table_id }
        requires place { cell < (triples self.now.rows.inner.shared.key.processes).cells }
        requires bare { (v : Process (TripleSight T)) × (p : WriterNotes T)
            × HasWriter seat.old.inner.me cell v p × (p.has ≡ 0) }
        ensures own { seat.new.inner.table_id ≡ seat.old.inner.table_id }
        ensures took { put_takes (step self.now.rows.inner.shared.table_id.slots (8 * cell + 8) 0 0 none)
            seat.old.inner.me result seat.new.inner.me }
    {
        self.rows
            .inner
            .shared
            .load::<PutTakes>(&mut seat.inner, word_of(cell))
    }

    /// A load of a cell's word, with which its reader takes its first slot.
    pub(super) fn take_get(&self, seat: &mut FamilySeat<T>, cell: usize) -> u64
        requires own { seat.old.inner.table_id ≡ self.now.rows.inner.shared.table_id }
        requires place { cell < (triples self.now.rows.inner.shared.key.processes).cells }
        requires bare { (v : Process (TripleSight T)) × (g : ReaderNotes T)
            × HasReader seat.old.inner.me cell v g × (g.has ≡ 0) }
        ensures own { seat.new.inner.table_id ≡ seat.old.inner.table_id }
        ensures took { get_takes (step self.now.rows.inner.shared.table_id.slots (8 * cell + 8) 0 0 none)
            seat.old.inner.me result seat.new.inner.me }
    {
        self.rows
            .inner
            .shared
            .load::<GetTakes>(&mut seat.inner, word_of(cell))
    }

    /// The writer's swap, the whole write: its slot goes into the middle, with the mark, and it
    /// takes the slot that was there.
    #[inline]
    pub(super) fn publish<K: Opening<T>>(
        &self,
        seat: &mut FamilySeat<T>,
        cell: usize,
        new: u64,
    ) -> u64
        requires opening { (K.first ≡ self.now.rows.inner.shared.key.first ∷ [])
            × (K.processes ≡ self.now.rows.inner.shared.key.processes)
            × (K.limit ≡ self.now.rows.inner.shared.key.limit) }
        requires own { seat.old.inner.table_id ≡ self.now.rows.inner.shared.table_id }
        requires place { cell < (triples self.now.rows.inner.shared.key.processes).cells }
        requires filled { (v : Process (TripleSight T)) × (p : WriterNotes T) × (x : T) × (cs : List (ℕ × T))
            × HasWriter seat.old.inner.me cell v p
            × (seat.old.inner.me.1 ≡ (slot_at cell p.slot, x) ∷ cs) × (p.has ≡ 1) × T.fits x
            × T.rises (last_or p.opening.value p.written) x × (new ≡ p.slot + 4)
            × MayPublish (plan_of T.plan self.now.rows.inner.shared.key) v cell p x }
        ensures own { seat.new.inner.table_id ≡ seat.old.inner.table_id }
        ensures swapped { publishes (step self.now.rows.inner.shared.table_id.slots (8 * cell + 8) new 0 none)
            seat.old.inner.me result seat.new.inner.me }
        ensures shown { ShowsAll T.plan self.now.rows.inner.shared.key seat.new.inner.me }
    {
        self.rows
            .inner
            .shared
            .swap::<Showing<Publishes, TripleMechanism, K>>(&mut seat.inner, word_of(cell), new)
    }

    /// The reader's load: the whole read, where it finds no mark.
    #[inline]
    pub(super) fn look<K: Opening<T>>(&self, seat: &mut FamilySeat<T>, cell: usize) -> u64
        requires opening { (K.first ≡ self.now.rows.inner.shared.key.first ∷ [])
            × (K.processes ≡ self.now.rows.inner.shared.key.processes)
            × (K.limit ≡ self.now.rows.inner.shared.key.limit) }
        requires own { seat.old.inner.table_id ≡ self.now.rows.inner.shared.table_id }
        requires place { cell < (triples self.now.rows.inner.shared.key.processes).cells }
        requires idle { (v : Process (TripleSight T)) × (g : ReaderNotes T) × HasReader seat.old.inner.me cell v g
            × (g.asked ≡ 0)
            × MayDecide (plan_of T.plan self.now.rows.inner.shared.key) v cell g }
        ensures own { seat.new.inner.table_id ≡ seat.old.inner.table_id }
        ensures looked { looks T.fits T.rises (step self.now.rows.inner.shared.table_id.slots (8 * cell + 8) 0 0 none)
            seat.old.inner.me result
            seat.new.inner.me }
        ensures shown { ShowsAll T.plan self.now.rows.inner.shared.key seat.new.inner.me }
    {
        self.rows
            .inner
            .shared
            .load::<Showing<Looks, TripleMechanism, K>>(&mut seat.inner, word_of(cell))
    }

    /// The reader's swap, where its load found the mark: its slot goes into the middle, and it
    /// takes the slot that was there.
    #[inline]
    pub(super) fn fetch<K: Opening<T>>(
        &self,
        seat: &mut FamilySeat<T>,
        cell: usize,
        new: u64,
    ) -> u64
        requires opening { (K.first ≡ self.now.rows.inner.shared.key.first ∷ [])
            × (K.processes ≡ self.now.rows.inner.shared.key.processes)
            × (K.limit ≡ self.now.rows.inner.shared.key.limit) }
        requires own { seat.old.inner.table_id ≡ self.now.rows.inner.shared.table_id }
        requires place { cell < (triples self.now.rows.inner.shared.key.processes).cells }
        requires marked { (v : Process (TripleSight T)) × (g : ReaderNotes T) × (cs : List (ℕ × T))
            × HasReader seat.old.inner.me cell v g
            × (seat.old.inner.me.1 ≡ (slot_at cell g.slot, g.at_hand.value) ∷ cs) × (g.has ≡ 1) × (g.asked ≡ 1)
            × (new ≡ g.slot)
            × MayDecide (plan_of T.plan self.now.rows.inner.shared.key) v cell g }
        ensures own { seat.new.inner.table_id ≡ seat.old.inner.table_id }
        ensures swapped { fetches T.fits T.rises
            (step self.now.rows.inner.shared.table_id.slots (8 * cell + 8) new 0 none) seat.old.inner.me result
            seat.new.inner.me }
        ensures shown { ShowsAll T.plan self.now.rows.inner.shared.key seat.new.inner.me }
    {
        self.rows
            .inner
            .shared
            .swap::<Showing<Fetches, TripleMechanism, K>>(&mut seat.inner, word_of(cell), new)
    }

    /// The first slot of a seat goes behind its others. Nothing is done at run time.
    #[inline]
    pub(super) fn turn(&self, seat: &mut FamilySeat<T>)
        ensures own { seat.new.inner.table_id ≡ seat.old.inner.table_id }
        ensures turned { seat.new.inner.me ≡ (seat.old.inner.me.0, turned seat.old.inner.me.1) }
    {
        seat.inner.turn();
    }
}
