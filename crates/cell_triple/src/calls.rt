//! The calls of the triple buffer.
ghost use Rattle.std.specs.Prelude.{◌≡◌, ℕ, ◌+◌, ◌<◌, ◌≤◌, [], ◌∷◌, ◌++◌, IfOk};
ghost use Rattle.std.specs.Fn.{FnOnceTakesAt, FnOnceReturnsAt};
ghost use Rattle.cell_contract.specs.Running.{last_or, IsAnswer};
ghost use Rattle.cell_contract.specs.CallsSoFar.{AreCallsSoFar};
ghost use Rattle.cell_triple.specs.Words.{opening_of, is_put_of, is_get_of, is_receipt_of, written_by};
ghost use Rattle.cell_triple.specs.Words.{answers_of, at_hand_of, told_to};
ghost use Rattle.cell_triple.specs.Words.{named_by, swaps_of_put, loads_of, swaps_of, held_by, found_by, HasLooked};
ghost use Rattle.cell_triple.specs.Words.{put_times, get_times, numbers_of, known_to, time_of, heard_by, writes_of};
ghost use Rattle.cell_contract.specs.Intervals.{AreHeeded, IsNextAnswer, IsNextCall, no_times, none_known};
ghost use Rattle.cell_triple.specs.Words.{get_notes};
ghost use Rattle.cell_triple.specs.Lent.{placed_by};

use crate::cell::{TripleCell, TripleGet, TriplePut, TripleReceipt};
use crate::table::TripleTable;
use cell_contract::{Calls, Cell, Kept, Lawful, Lays, Spare, Whole};
use std::alloc::{AllocError, Global};

/// Takes the middle slot where the word has the mark. The answer is then at hand.
#[inline]
fn refresh<T: Lawful>(cell: &TripleCell<T>, get: &mut TripleGet<T>)
    requires { is_get_of cell.now get.old }
    ensures { HasLooked T.fits T.rises cell.now get.old get.new }
{
    let found = cell.table.look(&mut get.seat);
    if found < 4 {
        return;
    }
    let taken = cell.table.fetch(&mut get.seat, get.slot as u64);
    get.slot = (taken % 4) as usize;
}

impl<T: Lawful> TripleCell<T> {
    /// A cell that holds what lies at `first`, with its two passes.
    pub fn make_from(
        alloc: Global,
        first: &T,
    ) -> Result<(Self, TriplePut<T>, TripleGet<T>), AllocError>
        requires { T.fits first.now }
        ensures own { IfOk result (λ r. (opening_of r.0 ≡ first.now) × is_put_of r.0 r.1 × is_get_of r.0 r.2) }
        ensures empty { IfOk result (λ r. (written_by r.1 ≡ []) × (answers_of r.2 ≡ []) × (told_to r.2 ≡ [])) }
        ensures unused { IfOk result (λ r. (swaps_of_put r.1 ≡ 0) × (loads_of r.2 + swaps_of r.2 ≡ 0)) }
        ensures timeless { IfOk result (λ r. (put_times r.1 ≡ no_times) × (get_times r.2 ≡ no_times)
            × (numbers_of r.2 ≡ []) × (known_to r.2 ≡ none_known)) }
        ensures unheard { IfOk result (λ r. heard_by r.2 ≡ []) }
    {
        let (table, mut put) = TripleTable::new(alloc, first)?;
        let mut get = table.part(&mut put);
        table.take_put(&mut put);
        table.take_get(&mut get);
        let put_spare = Spare::of(first);
        let get_spare = Spare::of(first);
        Ok((
            TripleCell { table },
            TriplePut {
                seat: put,
                slot: 0,
                spare: put_spare,
            },
            TripleGet {
                seat: get,
                slot: 2,
                spare: get_spare,
            },
        ))
    }

    /// Shows the record that the parts make to the reader, and copies each part once, into the slot.
    #[inline]
    pub fn write_laid<L: Lays<T>>(&self, put: &mut TriplePut<T>, parts: &L)
        requires own { is_put_of self.now put.old }
        requires lawful { T.fits (L.whole parts.now)
            × T.rises (last_or (opening_of self.now) (written_by put.old)) (L.whole parts.now) }
        ensures own { is_put_of self.now put.new }
        ensures written { written_by put.new ≡ written_by put.old ++ L.whole parts.now ∷ [] }
        ensures accesses { swaps_of_put put.new ≤ swaps_of_put put.old + 3 }
        ensures swapped { swaps_of_put put.new ≡ swaps_of_put put.old + 1 }
        ensures timed { IsNextCall (put_times put.old) (put_times put.new) }
    {
        self.table.fill(&mut put.seat, put.slot, parts);
        self.write_placed(put);
    }

    /// Shows the record in the writer's slot to the reader, as `TriplePut::place` left it. The slot had an older
    /// record, or the opening: what was not written there since is still that record's.
    #[inline]
    pub fn write_placed(&self, put: &mut TriplePut<T>)
        requires own { is_put_of self.now put.old }
        requires lawful { T.fits (placed_by put.old)
            × T.rises (last_or (opening_of self.now) (written_by put.old)) (placed_by put.old) }
        ensures own { is_put_of self.now put.new }
        ensures written { written_by put.new ≡ written_by put.old ++ placed_by put.old ∷ [] }
        ensures accesses { swaps_of_put put.new ≤ swaps_of_put put.old + 3 }
        ensures swapped { swaps_of_put put.new ≡ swaps_of_put put.old + 1 }
        ensures timed { IsNextCall (put_times put.old) (put_times put.new) }
    {
        let found = self.table.publish(&mut put.seat, put.slot as u64 + 4);
        put.slot = (found % 4) as usize;
    }

    /// Lends the last answer again, where it lies. No write goes into the slot that a pass holds, so until the next
    /// read it is the same record. Makes no access.
    #[inline]
    pub fn look_again<R, F: FnOnce(&T) -> R>(&self, get: &mut TripleGet<T>, see: F) -> R
        requires own { is_get_of self.now get.old }
        requires callable { FnOnceTakesAt F.FnOnce see (at_hand_of get.old) }
        ensures own { is_get_of self.now get.new }
        // The pass holds the same slot, and has made no access.
        ensures same { (held_by get.new ≡ held_by get.old) × (get_notes get.new ≡ get_notes get.old) }
        ensures looked { FnOnceReturnsAt F.FnOnce see (at_hand_of get.old) result }
    {
        self.table.lend(&mut get.seat, get.slot, see)
    }
}

impl<T: Lawful> Calls<T> for TripleCell<T> {
    type Put = TriplePut<T>;

    type Get = TripleGet<T>;

    type Receipt = TripleReceipt<T>;

    ghost opening = { opening_of };

    ghost is_put = { is_put_of };

    ghost is_get = { is_get_of };

    ghost is_receipt = { is_receipt_of };

    ghost written = { written_by };

    ghost answers = { answers_of };

    ghost at_hand = { at_hand_of };

    ghost told = { told_to };

    ghost named = { named_by };

    ghost put_accesses = { swaps_of_put };

    ghost get_accesses = { λ g. loads_of g + swaps_of g };

    ghost put_times = { put_times };

    ghost get_times = { get_times };

    ghost numbers = { numbers_of };

    ghost known = { known_to };

    ghost time_of = { time_of };

    ghost writes_of = { writes_of };

    ghost heard = { heard_by };

    fn make(alloc: Global, first: T) -> Result<(Self, TriplePut<T>, TripleGet<T>), AllocError> {
        TripleCell::make_from(alloc, &first)
    }

    #[inline]
    fn write(&self, put: &mut TriplePut<T>, item: T)
        requires own { is_put_of self.now put.old }
        requires lawful { T.fits item × T.rises (last_or (opening_of self.now) (written_by put.old)) item }
        ensures own { is_put_of self.now put.new }
        ensures written { written_by put.new ≡ written_by put.old ++ item ∷ [] }
        ensures accesses { swaps_of_put put.new ≤ swaps_of_put put.old + 3 }
        ensures swapped { swaps_of_put put.new ≡ swaps_of_put put.old + 1 }
        ensures timed { IsNextCall (put_times put.old) (put_times put.new) }
    {
        self.write_from(put, &item);
    }

    #[inline]
    fn write_from(&self, put: &mut TriplePut<T>, item: &T)
        requires own { is_put_of self.now put.old }
        requires lawful { T.fits item.now × T.rises (last_or (opening_of self.now) (written_by put.old)) item.now }
        ensures own { is_put_of self.now put.new }
        ensures written { written_by put.new ≡ written_by put.old ++ item.now ∷ [] }
        ensures accesses { swaps_of_put put.new ≤ swaps_of_put put.old + 3 }
        ensures swapped { swaps_of_put put.new ≡ swaps_of_put put.old + 1 }
        ensures timed { IsNextCall (put_times put.old) (put_times put.new) }
    {
        self.write_laid(put, &Whole { item });
    }

    #[inline]
    fn read(&self, get: &mut TripleGet<T>) -> T
        requires { is_get_of self.now get.old }
        ensures own { is_get_of self.now get.new }
        ensures answers { answers_of get.new ≡ answers_of get.old ++ result ∷ [] }
        ensures told { told_to get.new ≡ told_to get.old }
        ensures running { IsAnswer T.fits T.rises (opening_of self.now) (answers_of get.old) (told_to get.old) result }
        ensures accesses { loads_of get.new + swaps_of get.new ≤ loads_of get.old + swaps_of get.old + 3 }
        // One load, and a swap exactly where the word that it found has the mark.
        ensures loaded { loads_of get.new ≡ loads_of get.old + 1 }
        ensures unmarked { found_by get.new < 4 → swaps_of get.new ≡ swaps_of get.old }
        ensures marked { 4 ≤ found_by get.new → swaps_of get.new ≡ swaps_of get.old + 1 }
        // The answer is the record of the slot that the pass then holds.
        ensures held { held_by get.new ≡ (get.new.slot, result) ∷ [] }
        ensures timed { IsNextCall (get_times get.old) (get_times get.new) }
        ensures numbered { IsNextAnswer (opening_of self.now) (known_to get.old)
            (known_to get.new) (numbers_of get.old) (numbers_of get.new)
            (answers_of get.new) (get_times get.new) result }
        ensures heeds { (heard_by get.new ≡ heard_by get.old)
            × AreHeeded (heard_by get.new) (known_to get.new) (last_or 0 (numbers_of get.new)) }
        ensures so_far { AreCallsSoFar T.fits T.rises (opening_of self.now) (heard_by get.new) (answers_of get.new)
            (get_times get.new) }
    {
        refresh(self, get);
        self.table.copy(&mut get.seat, get.slot)
    }

    #[inline]
    fn read_with<R, F: FnOnce(&T) -> R>(&self, get: &mut TripleGet<T>, look: F) -> R
        requires own { is_get_of self.now get.old }
        requires callable { (x : T) →
            IsAnswer T.fits T.rises (opening_of self.now) (answers_of get.old) (told_to get.old) x →
            FnOnceTakesAt F.FnOnce look x }
        ensures own { is_get_of self.now get.new }
        ensures answers { answers_of get.new ≡ answers_of get.old ++ at_hand_of get.new ∷ [] }
        ensures told { told_to get.new ≡ told_to get.old }
        ensures running { IsAnswer T.fits T.rises (opening_of self.now) (answers_of get.old) (told_to get.old)
            (at_hand_of get.new) }
        ensures accesses { loads_of get.new + swaps_of get.new ≤ loads_of get.old + swaps_of get.old + 3 }
        ensures loaded { loads_of get.new ≡ loads_of get.old + 1 }
        ensures unmarked { found_by get.new < 4 → swaps_of get.new ≡ swaps_of get.old }
        ensures marked { 4 ≤ found_by get.new → swaps_of get.new ≡ swaps_of get.old + 1 }
        ensures held { held_by get.new ≡ (get.new.slot, at_hand_of get.new) ∷ [] }
        ensures timed { IsNextCall (get_times get.old) (get_times get.new) }
        ensures numbered { IsNextAnswer (opening_of self.now) (known_to get.old)
            (known_to get.new) (numbers_of get.old) (numbers_of get.new)
            (answers_of get.new) (get_times get.new) (at_hand_of get.new) }
        ensures heeds { (heard_by get.new ≡ heard_by get.old)
            × AreHeeded (heard_by get.new) (known_to get.new) (last_or 0 (numbers_of get.new)) }
        ensures so_far { AreCallsSoFar T.fits T.rises (opening_of self.now) (heard_by get.new) (answers_of get.new)
            (get_times get.new) }
        ensures looked { FnOnceReturnsAt F.FnOnce look (at_hand_of get.new) result }
    {
        refresh(self, get);
        self.table.lend(&mut get.seat, get.slot, look)
    }

    fn tell(&self, put: &mut TriplePut<T>) -> TripleReceipt<T> {
        let seat = self.table.tell(&mut put.seat);
        let spare = put.spare.again();
        TripleReceipt { seat, spare }
    }

    fn learn(&self, get: &mut TripleGet<T>, receipt: TripleReceipt<T>) {
        let TripleReceipt { seat, spare: _ } = receipt;
        self.table.hear(&mut get.seat, seat);
    }

    fn finish(self, put: TriplePut<T>, get: TripleGet<T>) {
        let TripleCell { table } = self;
        let TriplePut {
            seat: mut put,
            slot: _,
            spare: _,
        } = put;
        let TripleGet {
            seat: mut get,
            slot: _,
            spare: _,
        } = get;
        let notes = table.yield_notes(&mut put);
        table.end(&mut get, notes);
        table.close(get);
    }
}

impl<T: Kept> Cell<T> for TripleCell<T> {}
