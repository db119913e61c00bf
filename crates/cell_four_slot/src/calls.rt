//! The calls of the four-slot cell.
ghost use Rattle.std.specs.Prelude.{◌≡◌, ◌≢◌, ◌≤◌, ◌+◌, [], ◌∷◌, ◌++◌, IfOk};
ghost use Rattle.std.specs.Fn.{FnOnceTakesAt, FnOnceReturnsAt};
ghost use Rattle.four_slot_core.specs.declared.event.WriteEvent.TheVariants.{W1, W2, W3, W4, W5};
ghost use Rattle.four_slot_core.specs.declared.event.ReadEvent.TheVariants.{R1, R2, R3, R4, R5};
ghost use Rattle.cell_contract.specs.Running.{last_or, IsAnswer, Settled, snap};
ghost use Rattle.cell_contract.specs.Intervals.{AreAtomic, AreFirst, AreHeeded, HaveEnded, IsHeard};
ghost use Rattle.cell_contract.specs.Intervals.{IsNextAnswer, IsNextCall};
ghost use Rattle.cell_contract.specs.Intervals.{known_as, no_times, none_known};
ghost use Rattle.cell_contract.specs.CallsSoFar.{AreCallsSoFar};
ghost use Rattle.cell_four_slot.specs.Words.{opening_of, is_put_of, is_get_of, is_receipt_of};
ghost use Rattle.cell_four_slot.specs.Words.{written_by, answers_of, at_hand_of};
ghost use Rattle.cell_four_slot.specs.Words.{told_to, named_by, write_events, read_events};
ghost use Rattle.cell_four_slot.specs.Words.{writer_accesses, reader_accesses};
ghost use Rattle.cell_four_slot.specs.Words.{pair_said, pair_shown};
ghost use Rattle.cell_four_slot.specs.Words.{chosen_slot, held_by, HasChosen, put_times, get_times};
ghost use Rattle.cell_four_slot.specs.Words.{numbers_of, known_to, time_of};
ghost use Rattle.cell_four_slot.specs.Words.{heard_by, writes_of};

use crate::bits::{bit_of, other_bit, set_bit, slot_of, word_of};
use crate::cell::{FourSlotCell, FourSlotGet, FourSlotPut, FourSlotReceipt};
use crate::table::FourSlotTable;
use cell_contract::{Calls, Cell, Kept, Lawful, Lays, Spare, Whole};
use std::alloc::{AllocError, Global};
use std::marker::Brand;

/// The control accesses of a read, which take the slot that has the answer. Gives its number.
#[inline]
fn choose<T: Lawful>(cell: &FourSlotCell<T>, get: &mut FourSlotGet<T>) -> usize
    requires { is_get_of cell.now get.old }
    ensures { HasChosen T.fits T.rises cell.now get.old get.new result }
{
    let table = &cell.table;
    let latest = table.announce(&mut get.seat, get.said);
    get.said = latest;
    let word = word_of(latest);
    let index = table.take(&mut get.seat, word);
    slot_of(latest, index)
}

impl<T: Lawful> FourSlotCell<T> {
    /// A cell that holds what lies at `first`, with its two passes.
    pub fn make_from(
        alloc: Global,
        first: &T,
    ) -> Result<(Self, FourSlotPut<T>, FourSlotGet<T>), AllocError>
        requires { T.fits first.now }
        ensures own { IfOk result (λ r. (opening_of r.0 ≡ first.now) × is_put_of r.0 r.1 × is_get_of r.0 r.2) }
        ensures empty { IfOk result (λ r. (written_by r.1 ≡ []) × (answers_of r.2 ≡ []) × (told_to r.2 ≡ [])) }
        ensures unused { IfOk result (λ r. (writer_accesses r.1 ≡ 0) × (reader_accesses r.2 ≡ 0)) }
        ensures events { IfOk result (λ r. (write_events r.1 ≡ []) × (read_events r.2 ≡ [])) }
        ensures timeless { IfOk result (λ r. (put_times r.1 ≡ no_times) × (get_times r.2 ≡ no_times)
            × (numbers_of r.2 ≡ []) × (known_to r.2 ≡ none_known)) }
        ensures unheard { IfOk result (λ r. heard_by r.2 ≡ []) }
    {
        let (table, mut put) = FourSlotTable::new(alloc, first)?;
        let get = table.part(&mut put);
        let put_spare = Spare::of(first);
        let get_spare = Spare::of(first);
        Ok((
            FourSlotCell { table },
            FourSlotPut {
                seat: put,
                remembered: [0, 0],
                latest: 0,
                spare: put_spare,
            },
            FourSlotGet {
                seat: get,
                said: 2,
                spare: get_spare,
            },
        ))
    }

    /// Shows the record that the parts make to the reader, and copies each part once, into the slot.
    #[inline]
    pub fn write_laid<L: Lays<T>>(&self, put: &mut FourSlotPut<T>, parts: &L)
        requires own { is_put_of self.now put.old }
        requires lawful { T.fits (L.whole parts.now)
            × T.rises (last_or (opening_of self.now) (written_by put.old)) (L.whole parts.now) }
        ensures own { is_put_of self.now put.new }
        ensures written { written_by put.new ≡ written_by put.old ++ L.whole parts.now ∷ [] }
        ensures accesses { writer_accesses put.new ≤ writer_accesses put.old + 3 }
        // Two accesses where `latest` has the pair already, as W5 then stores nothing; else three.
        ensures quiet { pair_shown put.new ≡ pair_shown put.old →
            writer_accesses put.new ≡ writer_accesses put.old + 2 }
        ensures moved { pair_shown put.new ≢ pair_shown put.old →
            writer_accesses put.new ≡ writer_accesses put.old + 3 }
        ensures events { write_events put.new ≡ write_events put.old ++ W1 (snap (L.whole parts.now)) ∷ W2
            ∷ W3 ∷ W4 ∷ W5 ∷ [] }
        ensures timed { IsNextCall (put_times put.old) (put_times put.new) }
    {
        let table = &self.table;
        let named = parts.name();
        let reading = table.begin::<Brand>(&mut put.seat, named);
        let pair = other_bit(reading);
        let stored = bit_of(&put.remembered, pair);
        let index = other_bit(stored);
        let slot = slot_of(pair, index);
        table.fill(&mut put.seat, slot, parts);
        table.publish(&mut put.seat, pair, index, put.latest);
        set_bit(&mut put.remembered, pair, index);
        put.latest = pair;
    }
}

impl<T: Lawful> Calls<T> for FourSlotCell<T> {
    type Put = FourSlotPut<T>;

    type Get = FourSlotGet<T>;

    type Receipt = FourSlotReceipt<T>;

    ghost opening = { opening_of };

    ghost is_put = { is_put_of };

    ghost is_get = { is_get_of };

    ghost is_receipt = { is_receipt_of };

    ghost written = { written_by };

    ghost answers = { answers_of };

    ghost at_hand = { at_hand_of };

    ghost told = { told_to };

    ghost named = { named_by };

    ghost put_accesses = { writer_accesses };

    ghost get_accesses = { reader_accesses };

    ghost put_times = { put_times };

    ghost get_times = { get_times };

    ghost numbers = { numbers_of };

    ghost known = { known_to };

    ghost time_of = { time_of };

    ghost writes_of = { writes_of };

    ghost heard = { heard_by };

    fn make(alloc: Global, first: T) -> Result<(Self, FourSlotPut<T>, FourSlotGet<T>), AllocError>
        requires { T.fits first }
        ensures own { IfOk result (λ r. (opening_of r.0 ≡ first) × is_put_of r.0 r.1 × is_get_of r.0 r.2) }
        ensures empty { IfOk result (λ r. (written_by r.1 ≡ []) × (answers_of r.2 ≡ []) × (told_to r.2 ≡ [])) }
        ensures unused { IfOk result (λ r. (writer_accesses r.1 ≡ 0) × (reader_accesses r.2 ≡ 0)) }
        ensures events { IfOk result (λ r. (write_events r.1 ≡ []) × (read_events r.2 ≡ [])) }
        ensures timeless { IfOk result (λ r. (put_times r.1 ≡ no_times) × (get_times r.2 ≡ no_times)
            × (numbers_of r.2 ≡ []) × (known_to r.2 ≡ none_known)) }
        ensures unheard { IfOk result (λ r. heard_by r.2 ≡ []) }
    {
        FourSlotCell::make_from(alloc, &first)
    }

    #[inline]
    fn write(&self, put: &mut FourSlotPut<T>, item: T)
        requires own { is_put_of self.now put.old }
        requires lawful { T.fits item × T.rises (last_or (opening_of self.now) (written_by put.old)) item }
        ensures own { is_put_of self.now put.new }
        ensures written { written_by put.new ≡ written_by put.old ++ item ∷ [] }
        ensures accesses { writer_accesses put.new ≤ writer_accesses put.old + 3 }
        ensures quiet { pair_shown put.new ≡ pair_shown put.old →
            writer_accesses put.new ≡ writer_accesses put.old + 2 }
        ensures moved { pair_shown put.new ≢ pair_shown put.old →
            writer_accesses put.new ≡ writer_accesses put.old + 3 }
        ensures events { write_events put.new ≡ write_events put.old ++ W1 (snap item) ∷ W2 ∷ W3 ∷ W4 ∷ W5 ∷ [] }
        ensures timed { IsNextCall (put_times put.old) (put_times put.new) }
    {
        self.write_from(put, &item);
    }

    #[inline]
    fn write_from(&self, put: &mut FourSlotPut<T>, item: &T)
        requires own { is_put_of self.now put.old }
        requires lawful { T.fits item.now × T.rises (last_or (opening_of self.now) (written_by put.old)) item.now }
        ensures own { is_put_of self.now put.new }
        ensures written { written_by put.new ≡ written_by put.old ++ item.now ∷ [] }
        ensures accesses { writer_accesses put.new ≤ writer_accesses put.old + 3 }
        ensures quiet { pair_shown put.new ≡ pair_shown put.old →
            writer_accesses put.new ≡ writer_accesses put.old + 2 }
        ensures moved { pair_shown put.new ≢ pair_shown put.old →
            writer_accesses put.new ≡ writer_accesses put.old + 3 }
        ensures events { write_events put.new ≡ write_events put.old ++ W1 (snap item.now) ∷ W2 ∷ W3 ∷ W4 ∷ W5 ∷ [] }
        ensures timed { IsNextCall (put_times put.old) (put_times put.new) }
    {
        self.write_laid(put, &Whole { item });
    }

    #[inline]
    fn read(&self, get: &mut FourSlotGet<T>) -> T
        requires { is_get_of self.now get.old }
        ensures own { is_get_of self.now get.new }
        ensures answers { answers_of get.new ≡ answers_of get.old ++ result ∷ [] }
        ensures told { told_to get.new ≡ told_to get.old }
        ensures running { IsAnswer T.fits T.rises (opening_of self.now) (answers_of get.old) (told_to get.old) result }
        ensures accesses { reader_accesses get.new ≤ reader_accesses get.old + 3 }
        // Two accesses where `reading` has the pair already, as R2 then stores nothing; else
        // three, as at the first read.
        ensures quiet { pair_said get.new ≡ pair_said get.old → reader_accesses get.new ≡ reader_accesses get.old + 2 }
        ensures moved { pair_said get.new ≢ pair_said get.old → reader_accesses get.new ≡ reader_accesses get.old + 3 }
        ensures events { read_events get.new ≡ read_events get.old ++ R1 ∷ R2 ∷ R3 ∷ R4 ∷ R5 (snap result) ∷ [] }
        // The pass holds the slot that this call's R3 took, and the answer is the record with which it came.
        ensures held { held_by get.new ≡ (chosen_slot get.new, result) ∷ [] }
        ensures timed { IsNextCall (get_times get.old) (get_times get.new) }
        ensures numbered { IsNextAnswer (opening_of self.now) (known_to get.old)
            (known_to get.new) (numbers_of get.old) (numbers_of get.new)
            (answers_of get.new) (get_times get.new) result }
        ensures heeds { (heard_by get.new ≡ heard_by get.old)
            × AreHeeded (heard_by get.new) (known_to get.new) (last_or 0 (numbers_of get.new)) }
        ensures so_far { AreCallsSoFar T.fits T.rises (opening_of self.now) (heard_by get.new) (answers_of get.new)
            (get_times get.new) }
    {
        let slot = choose(self, get);
        self.table.copy(&mut get.seat, slot)
    }

    #[inline]
    fn read_with<R, F: FnOnce(&T) -> R>(&self, get: &mut FourSlotGet<T>, look: F) -> R
        requires own { is_get_of self.now get.old }
        requires callable { (x : T) →
            IsAnswer T.fits T.rises (opening_of self.now) (answers_of get.old) (told_to get.old) x →
            FnOnceTakesAt F.FnOnce look x }
        ensures own { is_get_of self.now get.new }
        ensures answers { answers_of get.new ≡ answers_of get.old ++ at_hand_of get.new ∷ [] }
        ensures told { told_to get.new ≡ told_to get.old }
        ensures running { IsAnswer T.fits T.rises (opening_of self.now) (answers_of get.old) (told_to get.old)
            (at_hand_of get.new) }
        ensures accesses { reader_accesses get.new ≤ reader_accesses get.old + 3 }
        ensures quiet { pair_said get.new ≡ pair_said get.old → reader_accesses get.new ≡ reader_accesses get.old + 2 }
        ensures moved { pair_said get.new ≢ pair_said get.old → reader_accesses get.new ≡ reader_accesses get.old + 3 }
        ensures events { read_events get.new ≡ read_events get.old ++ R1 ∷ R2 ∷ R3 ∷ R4
            ∷ R5 (snap (at_hand_of get.new)) ∷ [] }
        ensures held { held_by get.new ≡ (chosen_slot get.new, at_hand_of get.new) ∷ [] }
        ensures timed { IsNextCall (get_times get.old) (get_times get.new) }
        ensures numbered { IsNextAnswer (opening_of self.now) (known_to get.old)
            (known_to get.new) (numbers_of get.old) (numbers_of get.new)
            (answers_of get.new) (get_times get.new) (at_hand_of get.new) }
        ensures heeds { (heard_by get.new ≡ heard_by get.old)
            × AreHeeded (heard_by get.new) (known_to get.new) (last_or 0 (numbers_of get.new)) }
        ensures so_far { AreCallsSoFar T.fits T.rises (opening_of self.now) (heard_by get.new) (answers_of get.new)
            (get_times get.new) }
        ensures looked { FnOnceReturnsAt F.FnOnce look (at_hand_of get.new) result }
    {
        let slot = choose(self, get);
        self.table.lend(&mut get.seat, slot, look)
    }

    fn tell(&self, put: &mut FourSlotPut<T>) -> FourSlotReceipt<T>
        requires { is_put_of self.now put.old }
        ensures own { is_put_of self.now put.new × is_receipt_of self.now result }
        ensures same { (written_by put.new ≡ written_by put.old) × (writer_accesses put.new ≡ writer_accesses put.old) }
        ensures named { named_by result ≡ last_or (opening_of self.now) (written_by put.old) }
        ensures events { write_events put.new ≡ write_events put.old }
        ensures timed { (put_times put.new ≡ put_times put.old) × (time_of result ≡ (put_times put.old).clock) }
        ensures tells { writes_of result ≡ known_as (written_by put.old) (put_times put.old) }
    {
        let seat = self.table.tell(&mut put.seat);
        let spare = put.spare.again();
        FourSlotReceipt { seat, spare }
    }

    fn learn(&self, get: &mut FourSlotGet<T>, receipt: FourSlotReceipt<T>)
        requires { is_get_of self.now get.old × is_receipt_of self.now receipt }
        ensures own { is_get_of self.now get.new }
        ensures same { (answers_of get.new ≡ answers_of get.old) × (reader_accesses get.new ≡ reader_accesses get.old) }
        ensures told { told_to get.new ≡ told_to get.old ++ named_by receipt ∷ [] }
        ensures events { (read_events get.new ≡ read_events get.old) × (held_by get.new ≡ held_by get.old) }
        ensures timed { IsHeard (get_times get.old) (get_times get.new) (time_of receipt) }
        ensures numbers { (numbers_of get.new ≡ numbers_of get.old) × (known_to get.new ≡ known_to get.old) }
        ensures heard { heard_by get.new ≡ heard_by get.old ++ writes_of receipt ∷ [] }
    {
        let FourSlotReceipt { seat, spare: _ } = receipt;
        self.table.hear(&mut get.seat, seat);
    }

    fn finish(self, put: FourSlotPut<T>, get: FourSlotGet<T>)
        requires { is_put_of self put × is_get_of self get }
        ensures settled { Settled (opening_of self ∷ written_by put) (answers_of get) }
        ensures atomic { AreAtomic (opening_of self) (written_by put) (put_times put) (answers_of get)
            (numbers_of get) (get_times get) }
        ensures ended { HaveEnded (put_times put) }
        ensures known { AreFirst (known_to get) (written_by put) (put_times put) }
    {
        let FourSlotCell { table } = self;
        let FourSlotPut {
            seat: mut put,
            remembered: _,
            latest: _,
            spare: _,
        } = put;
        let FourSlotGet {
            seat: mut get,
            said,
            spare: _,
        } = get;
        table.announce(&mut get, said);
        table.end(&mut put, get);
        table.close(put);
    }
}

impl<T: Kept> Cell<T> for FourSlotCell<T> {}
