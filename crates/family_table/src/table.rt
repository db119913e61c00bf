//! The table of a family, what goes from seat to seat, and what a seat does with its slots. The steps
//! of a mechanism stand with it.
ghost use Rattle.std.specs.Prelude.{◌≡◌, ◌⊎◌, true, false, ℕ, ◌+◌, ◌*◌, ◌<◌, ◌≤◌, List, [], ◌∷◌, ◌++◌};
ghost use Rattle.std.specs.Prelude.{replicate, IfOk};
ghost use Rattle.atomic_table.specs.Table.{opening};
ghost use Rattle.family_table.specs.declared.notes.Process.{Process};
ghost use Rattle.family_table.specs.declared.notes.Receipt.{Receipt};
ghost use Rattle.family_table.specs.declared.notes.View.TheVariants.{Told, Has};
ghost use Rattle.family_table.specs.Ends.{AllDone, AllSoFar, Finds};
ghost use Rattle.family_table.specs.Family.{of_cell, says_by, finds_by, FamilyRule};
ghost use Rattle.family_table.specs.Seats.{all_but_first, all_of, first_of, no_process, told_by, learnt_by, joined};

use crate::mechanism::{FamilyLaw, Mechanism};
use crate::notes::{Looking, Opened, Opening, View};
use crate::plays::{
    All, First, Gathers, Learns, Looks, Repeats, Says, Showing, Shows, ShowsAll, Tells,
};
use atomic_table::{Seat, Table};
use cell_contract::{Sees, empty};
use std::alloc::{AllocError, Global};
use std::marker::Brand;

/// The words and slots of all registers. Eight words that nobody stores to come first, and last a word of each process,
/// in which it says its tags.
#[derive(Drop)]
pub struct Rows<T: Copy, V, M: Mechanism<T, V>> {
    pub inner: Table<T, View<V>, Opened<T>, FamilyLaw<M>, Global>,
    pub ghost there: { 0 < inner.shared.table_id.words },
    pub ghost some: { (2 ≤ inner.shared.key.processes) × (inner.shared.key.processes ≤ 16) },
}

/// The word in which process `i` says its tags, where all cells have so many words.
#[inline]
fn said_word(words: usize, i: usize) -> usize
    requires { (words ≤ 4104) × (i < 16) }
    ensures { result ≡ words + 8 * i }
{
    words + 8 * i
}

/// A seat at the table.
#[derive(Drop)]
pub struct FamilySeat<T: Copy, V> {
    pub inner: Seat<T, View<V>>,
}

impl<T: Copy, V, M: Mechanism<T, V>> Rows<T, V, M> {
    /// A table of the registers of so many processes, which all hold this record, and a seat that has all processes. A
    /// register takes `stride` words, which hold `word` at first. The processes' plans alone speak of the limit. Behind
    /// these words each process has a line of words, the first of which has its tags, and which hold 0 at first.
    pub fn new(
        alloc: Global,
        processes: usize,
        limit: u64,
        first: T,
        stride: usize,
        word: u64,
        slots: usize,
    ) -> Result<(Self, FamilySeat<T, V>), AllocError>
        requires some { (2 ≤ processes) × (processes ≤ 16) }
        requires small { (stride ≤ 16) × (slots ≤ 4) }
        requires starts { FamilyRule M.blank (M.layout processes) (M.keeps first)
            (M.plan first limit processes) processes
            (opening (replicate (stride * (processes * processes) + 8) word ++ replicate (8 * processes) 0)
            (replicate (slots * (processes * processes)) first) (M.first first processes)) }
        ensures key { IfOk result (λ r.
            r.0.inner.shared.key ≡ record { first = first; processes = processes; limit = limit }) }
        ensures sized { IfOk result (λ r.
            r.0.inner.shared.table_id.words ≡ stride * (processes * processes) + 8 + 8 * processes) }
        ensures seat { IfOk result (λ r. (r.1.inner.table_id ≡ r.0.inner.shared.table_id)
            × (r.1.inner.me ≡ (M.first first processes, []))) }
    {
        let cells = processes * processes;
        let mut words = Vec::new(alloc);
        words
            .resize(stride * cells + 8, word)
            .map_err(|_| AllocError)?;
        words
            .resize(stride * cells + 8 + 8 * processes, 0)
            .map_err(|_| AllocError)?;
        let mut records = Vec::new(alloc);
        records
            .resize(slots * cells, first)
            .map_err(|_| AllocError)?;
        let (table, seat) = Table::new(
            alloc,
            words.as_slice(),
            records,
            &Opened {
                first,
                processes,
                limit,
            },
        )
        .map_err(|_| AllocError)?;
        Ok((Rows { inner: table }, FamilySeat { inner: seat }))
    }

    /// Parts the first process of a seat off.
    pub fn part(&self, seat: &mut FamilySeat<T, V>) -> FamilySeat<T, V>
        requires own { seat.old.inner.table_id ≡ self.now.inner.shared.table_id }
        requires some { (p : Process V) × (ps : List (Process V)) × (seat.old.inner.me.0 ≡ Has (p ∷ ps)) }
        ensures own { (seat.new.inner.table_id ≡ seat.old.inner.table_id)
            × (result.inner.table_id ≡ seat.old.inner.table_id) }
        ensures parted { (seat.new.inner.me ≡ (all_but_first seat.old.inner.me.0, seat.old.inner.me.1))
            × (result.inner.me ≡ (first_of seat.old.inner.me.0, [])) }
    {
        let parted = self.inner.shared.split_seat::<First>(&mut seat.inner);
        FamilySeat { inner: parted }
    }

    /// Parts a receipt of a process off.
    pub fn tell(&self, seat: &mut FamilySeat<T, V>) -> FamilySeat<T, V>
        requires own { seat.old.inner.table_id ≡ self.now.inner.shared.table_id }
        requires idle { (v : Process V) × (seat.old.inner.me.0 ≡ Has (v ∷ []))
            × ((k : ℕ) → M.idle (of_cell M.blank k v.parts)) }
        ensures own { (seat.new.inner.table_id ≡ seat.old.inner.table_id)
            × (result.inner.table_id ≡ seat.old.inner.table_id) }
        ensures parted { (seat.new.inner.me ≡ seat.old.inner.me)
            × (result.inner.me ≡ (told_by M.receipt seat.old.inner.me.0, [])) }
    {
        let parted = self.inner.shared.split_seat::<Tells<T, M>>(&mut seat.inner);
        FamilySeat { inner: parted }
    }

    /// Parts a second receipt off a receipt, which tells the same.
    pub fn duplicate(&self, receipt: &mut FamilySeat<T, V>) -> FamilySeat<T, V>
        requires own { receipt.old.inner.table_id ≡ self.now.inner.shared.table_id }
        requires receipt { (r : Receipt V) × (receipt.old.inner.me ≡ (Told r, [])) }
        ensures own { (receipt.new.inner.table_id ≡ receipt.old.inner.table_id)
            × (receipt.new.inner.id ≡ receipt.old.inner.id)
            × (result.inner.table_id ≡ receipt.old.inner.table_id) }
        ensures same { (receipt.new.inner.me ≡ receipt.old.inner.me) × (result.inner.me ≡ receipt.old.inner.me) }
    {
        let again = self.inner.shared.split_seat::<Repeats>(&mut receipt.inner);
        FamilySeat { inner: again }
    }

    /// Joins a receipt into the seat of a process.
    pub fn hear(&self, seat: &mut FamilySeat<T, V>, receipt: FamilySeat<T, V>)
        requires own { (seat.old.inner.table_id ≡ self.now.inner.shared.table_id)
            × (receipt.inner.table_id ≡ self.now.inner.shared.table_id) }
        requires idle { (v : Process V) × (seat.old.inner.me.0 ≡ Has (v ∷ []))
            × ((k : ℕ) → M.idle (of_cell M.blank k v.parts)) }
        requires receipt { (r : Receipt V) × (receipt.inner.me ≡ (Told r, [])) }
        ensures own { seat.new.inner.table_id ≡ seat.old.inner.table_id }
        ensures joined { seat.new.inner.me
            ≡ (learnt_by M.hears seat.old.inner.me.0 receipt.inner.me.0, seat.old.inner.me.1) }
    {
        let FamilySeat { inner: receipt } = receipt;
        self.inner
            .shared
            .join_seat::<Learns<T, M>>(&mut seat.inner, receipt);
    }

    /// Takes what a seat knows of processes off it. Its slots stay with it.
    pub fn lift(&self, seat: &mut FamilySeat<T, V>) -> FamilySeat<T, V>
        requires own { seat.old.inner.table_id ≡ self.now.inner.shared.table_id }
        requires some { (ps : List (Process V)) × (seat.old.inner.me.0 ≡ Has ps) }
        ensures own { (seat.new.inner.table_id ≡ seat.old.inner.table_id) × (seat.new.inner.id ≡ seat.old.inner.id)
            × (result.inner.table_id ≡ seat.old.inner.table_id) }
        ensures lifted { (seat.new.inner.me ≡ (no_process seat.old.inner.me.0, seat.old.inner.me.1))
            × (result.inner.me ≡ (all_of seat.old.inner.me.0, [])) }
    {
        let bare = self.inner.shared.split_seat::<All>(&mut seat.inner);
        FamilySeat { inner: bare }
    }

    /// Joins what a seat with no slots knows of processes into another.
    pub fn put(&self, seat: &mut FamilySeat<T, V>, bare: FamilySeat<T, V>)
        requires own { (seat.old.inner.table_id ≡ self.now.inner.shared.table_id)
            × (bare.inner.table_id ≡ self.now.inner.shared.table_id) }
        requires some { (ps : List (Process V)) × (seat.old.inner.me.0 ≡ Has ps) }
        requires bare { (ps : List (Process V)) × (bare.inner.me ≡ (Has ps, [])) }
        ensures own { (seat.new.inner.table_id ≡ seat.old.inner.table_id) × (seat.new.inner.id ≡ seat.old.inner.id) }
        ensures joined { seat.new.inner.me ≡ (joined seat.old.inner.me.0 bare.inner.me.0, seat.old.inner.me.1) }
    {
        let FamilySeat { inner: bare } = bare;
        self.inner
            .shared
            .join_seat::<Gathers>(&mut seat.inner, bare);
    }

    /// Joins what another seat knows of processes into this one. The other's slots stay out.
    pub fn gather(&self, seat: &mut FamilySeat<T, V>, other: FamilySeat<T, V>)
        requires own { (seat.old.inner.table_id ≡ self.now.inner.shared.table_id)
            × (other.inner.table_id ≡ self.now.inner.shared.table_id) }
        requires some { (ps : List (Process V)) × (seat.old.inner.me.0 ≡ Has ps) }
        requires other { (ps : List (Process V)) × (other.inner.me.0 ≡ Has ps) }
        ensures own { seat.new.inner.table_id ≡ seat.old.inner.table_id }
        ensures joined { seat.new.inner.me ≡ (joined seat.old.inner.me.0 other.inner.me.0, seat.old.inner.me.1) }
    {
        let mut other = other;
        let bare = self.lift(&mut other);
        self.put(seat, bare);
    }

    /// A load that tells what the processes of a seat have done so far. Nothing changes.
    fn load_calls<K: Opening<T>>(&self, seat: &mut FamilySeat<T, V>)
        requires own { seat.old.inner.table_id ≡ self.now.inner.shared.table_id }
        requires opening { (K.first ≡ self.now.inner.shared.key.first ∷ [])
            × (K.processes ≡ self.now.inner.shared.key.processes) }
        ensures own { (seat.new.inner.table_id ≡ seat.old.inner.table_id) × (seat.new.inner.id ≡ seat.old.inner.id) }
        ensures same { seat.new.inner.me ≡ seat.old.inner.me }
        ensures shown { (ps : List (Process V)) → seat.old.inner.me.0 ≡ Has ps →
            AllDone M.blank (M.layout self.now.inner.shared.key.processes) (M.done self.now.inner.shared.key.first)
            self.now.inner.shared.key.processes ps }
    {
        self.inner.shared.load::<Shows<M, K>>(&mut seat.inner, 0);
    }

    /// Shows what the processes of a seat have done so far. Nothing changes.
    pub fn so_far(&self, seat: &mut FamilySeat<T, V>)
        requires own { seat.old.inner.table_id ≡ self.now.inner.shared.table_id }
        ensures own { (seat.new.inner.table_id ≡ seat.old.inner.table_id) × (seat.new.inner.id ≡ seat.old.inner.id) }
        ensures same { seat.new.inner.me ≡ seat.old.inner.me }
        ensures shown { (ps : List (Process V)) → seat.old.inner.me.0 ≡ Has ps →
            AllDone M.blank (M.layout self.now.inner.shared.key.processes) (M.done self.now.inner.shared.key.first)
            self.now.inner.shared.key.processes ps }
    {
        self.load_calls::<Brand>(seat);
    }

    /// A load that tells what all processes have done so far. Nothing changes.
    fn load_all<K: Opening<T>>(&self, seat: &mut FamilySeat<T, V>)
        requires own { seat.old.inner.table_id ≡ self.now.inner.shared.table_id }
        requires opening { (K.first ≡ self.now.inner.shared.key.first ∷ [])
            × (K.processes ≡ self.now.inner.shared.key.processes) × (K.limit ≡ self.now.inner.shared.key.limit) }
        ensures own { (seat.new.inner.table_id ≡ seat.old.inner.table_id) × (seat.new.inner.id ≡ seat.old.inner.id) }
        ensures same { seat.new.inner.me ≡ seat.old.inner.me }
        ensures shown { (ps : List (Process V)) → seat.old.inner.me.0 ≡ Has ps →
            AllSoFar M.blank (M.layout self.now.inner.shared.key.processes) (M.done self.now.inner.shared.key.first)
            (M.plan self.now.inner.shared.key.first self.now.inner.shared.key.limit self.now.inner.shared.key.processes)
            self.now.inner.shared.key.processes ps }
    {
        self.inner.shared.load::<ShowsAll<M, K>>(&mut seat.inner, 0);
    }

    /// Shows what all processes have done so far, whoever has their seats. Nothing changes.
    pub fn all_so_far(&self, seat: &mut FamilySeat<T, V>)
        requires own { seat.old.inner.table_id ≡ self.now.inner.shared.table_id }
        ensures own { (seat.new.inner.table_id ≡ seat.old.inner.table_id) × (seat.new.inner.id ≡ seat.old.inner.id) }
        ensures same { seat.new.inner.me ≡ seat.old.inner.me }
        ensures shown { (ps : List (Process V)) → seat.old.inner.me.0 ≡ Has ps →
            AllSoFar M.blank (M.layout self.now.inner.shared.key.processes) (M.done self.now.inner.shared.key.first)
            (M.plan self.now.inner.shared.key.first self.now.inner.shared.key.limit self.now.inner.shared.key.processes)
            self.now.inner.shared.key.processes ps }
    {
        self.load_all::<Brand>(seat);
    }

    /// Says this tag in the word of the seat's process. All cells have so many words.
    #[inline]
    pub fn say(&self, seat: &mut FamilySeat<T, V>, words: usize, who: usize, tag: u64)
        requires own { seat.old.inner.table_id ≡ self.now.inner.shared.table_id }
        requires at { (words ≡ (M.layout self.now.inner.shared.key.processes).words) × (words ≤ 4104) × (who < 16) }
        requires sized { self.now.inner.shared.table_id.words ≡ words + 8 * self.now.inner.shared.key.processes }
        requires one { (v : Process V) × (seat.old.inner.me.0 ≡ Has (v ∷ [])) × (v.who ≡ who)
            × (who < self.now.inner.shared.key.processes) }
        requires plan { (v : Process V) → seat.old.inner.me.0 ≡ Has (v ∷ []) → M.plan self.now.inner.shared.key.first
            self.now.inner.shared.key.limit self.now.inner.shared.key.processes v.who v →
            M.plan self.now.inner.shared.key.first self.now.inner.shared.key.limit
            self.now.inner.shared.key.processes v.who (says_by v tag) }
        ensures own { (seat.new.inner.table_id ≡ seat.old.inner.table_id) × (seat.new.inner.id ≡ seat.old.inner.id) }
        ensures said { (v : Process V) → seat.old.inner.me.0 ≡ Has (v ∷ []) →
            seat.new.inner.me ≡ (Has (says_by v tag ∷ []), seat.old.inner.me.1) }
    {
        self.inner
            .shared
            .store::<Says>(&mut seat.inner, said_word(words, who), tag);
    }

    /// Looks whether process `from` has said this tag or a greater one, and shows what all processes have done so far.
    /// All cells have so many words.
    #[inline]
    pub fn look<K: Opening<T>, L: Looking>(
        &self,
        seat: &mut FamilySeat<T, V>,
        words: usize,
        from: usize,
        tag: u64,
    ) -> bool
        requires opening { (K.first ≡ self.now.inner.shared.key.first ∷ [])
            × (K.processes ≡ self.now.inner.shared.key.processes) × (K.limit ≡ self.now.inner.shared.key.limit) }
        requires looking { (L.from ≡ from) × (L.tag ≡ tag) }
        requires own { seat.old.inner.table_id ≡ self.now.inner.shared.table_id }
        requires at { (words ≡ (M.layout self.now.inner.shared.key.processes).words) × (words ≤ 4104) × (from < 16) }
        requires sized { self.now.inner.shared.table_id.words ≡ words + 8 * self.now.inner.shared.key.processes }
        requires other { from < self.now.inner.shared.key.processes }
        requires one { (v : Process V) × (seat.old.inner.me.0 ≡ Has (v ∷ [])) }
        requires plan { (v : Process V) (t : ℕ) → seat.old.inner.me.0 ≡ Has (v ∷ []) →
            M.plan self.now.inner.shared.key.first self.now.inner.shared.key.limit
            self.now.inner.shared.key.processes v.who v →
            M.plan self.now.inner.shared.key.first self.now.inner.shared.key.limit
            self.now.inner.shared.key.processes v.who (finds_by v from tag t) }
        ensures own { (seat.new.inner.table_id ≡ seat.old.inner.table_id) × (seat.new.inner.id ≡ seat.old.inner.id) }
        ensures found { result ≡ true → (v : Process V) → seat.old.inner.me.0 ≡ Has (v ∷ []) →
            Finds from tag v seat.old.inner.me.1 seat.new.inner.me }
        ensures unfound { result ≡ false → seat.new.inner.me ≡ seat.old.inner.me }
        ensures shown { (ps : List (Process V)) → seat.new.inner.me.0 ≡ Has ps →
            AllSoFar M.blank (M.layout self.now.inner.shared.key.processes) (M.done self.now.inner.shared.key.first)
            (M.plan self.now.inner.shared.key.first self.now.inner.shared.key.limit self.now.inner.shared.key.processes)
            self.now.inner.shared.key.processes ps }
    {
        let said = self
            .inner
            .shared
            .load::<Showing<Looks<L>, M, K>>(&mut seat.inner, said_word(words, from));
        0 < said && tag <= said
    }

    /// Frees the table.
    pub fn close(self, seat: FamilySeat<T, V>)
        requires { seat.inner.table_id ≡ self.inner.shared.table_id }
        ensures { (ps : List (Process V)) → seat.inner.me.0 ≡ Has ps →
            AllDone M.blank (M.layout self.inner.shared.key.processes) (M.done self.inner.shared.key.first)
            self.inner.shared.key.processes ps }
    {
        let Rows { inner: table } = self;
        let FamilySeat { inner: seat } = seat;
        empty(table.close_with(seat));
    }

    /// Copies the record into the slot.
    #[inline]
    pub fn fill(&self, seat: &mut FamilySeat<T, V>, slot: usize, item: &T)
        requires own { seat.old.inner.table_id ≡ self.now.inner.shared.table_id }
        requires held { (x : T) × (cs : List (ℕ × T)) × (seat.old.inner.me.1 ≡ (slot, x) ∷ cs) }
        ensures own { seat.new.inner.table_id ≡ seat.old.inner.table_id }
        ensures filled { (x : T) (cs : List (ℕ × T)) → seat.old.inner.me.1 ≡ (slot, x) ∷ cs →
            seat.new.inner.me ≡ (seat.old.inner.me.0, (slot, item.now) ∷ cs) }
    {
        *seat.inner.slot_mut(&self.inner.shared, slot) = *item;
    }

    /// Shows the record where it lies.
    #[inline]
    pub fn show<L: Sees<T>>(&self, seat: &mut FamilySeat<T, V>, slot: usize, seen: &mut L)
        requires own { seat.old.inner.table_id ≡ self.now.inner.shared.table_id }
        requires held { (x : T) × (cs : List (ℕ × T)) × (seat.old.inner.me.1 ≡ (slot, x) ∷ cs) }
        ensures own { seat.new.inner.table_id ≡ seat.old.inner.table_id }
        ensures same { seat.new.inner.me ≡ seat.old.inner.me }
        ensures shown { (item : T) (cs : List (ℕ × T)) → seat.old.inner.me.1 ≡ (slot, item) ∷ cs →
            L.sees seen.old item seen.new }
    {
        seen.see(&*seat.inner.slot_mut(&self.inner.shared, slot));
    }
}
