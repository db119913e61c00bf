//! The slots that a seat has between two calls: those of the registers that its process writes, in turn, and then those
//! of the registers that it reads. The slot of a call comes first for as long as the call lasts.
ghost use Rattle.std.specs.Prelude.{◌≡◌, ◌≢◌, ◌||◌, true, false, ℕ, ◌+◌, ◌*◌, ◌-◌, ◌<◌, ◌≤◌, List, [], ◌∷◌, ◌++◌};
ghost use Rattle.std.specs.Prelude.{length};
ghost use Rattle.cell_triple.specs.declared.notes.ReaderNotes.{ReaderNotes};
ghost use Rattle.cell_triple.specs.Steps.{TripleSight};
ghost use Rattle.family_table.specs.declared.notes.Process.{Process};
ghost use Rattle.family_table.specs.declared.notes.View.TheVariants.{Has};
ghost use Rattle.family_triple.specs.Access.{HasLooked, IsReady};
ghost use Rattle.history_core.specs.Others.{other};
ghost use Rattle.family_triple.specs.Places.{among, triples, slot_at};
ghost use Rattle.family_triple.specs.Plans.{plan_of, MayDecide, ShowsAll};
ghost use Rattle.family_triple.specs.Tables.{HasReader};
ghost use Rattle.family_triple.specs.Triples.{first_process};

use crate::table::{FamilySeat, FamilyTable};
use cell_contract::{Planned, Sees};
use family_table::notes::Opening;
use family_table::place;

/// The number of process `j` among the others of process `i`.
#[inline]
pub(crate) fn among(i: usize, j: usize) -> usize
    requires { j ≢ i }
    ensures { result ≡ among i j }
{
    if j < i { j } else { j - 1 }
}

/// The other one of process `i` with this number.
fn other(i: usize, k: usize) -> usize
    requires { k < 16 }
    ensures { result ≡ other i k }
{
    if k < i { k } else { k + 1 }
}

/// So many of the first slots of a seat go behind its others. Nothing is done at run time.
#[inline]
pub(crate) fn turn_by<T: Planned>(table: &FamilyTable<T>, seat: &mut FamilySeat<T>, count: usize)
    ensures own { seat.new.inner.table_id ≡ seat.old.inner.table_id }
    ensures view { seat.new.inner.me.0 ≡ seat.old.inner.me.0 }
    ensures turned { (front back : List (ℕ × T)) → seat.old.inner.me.1 ≡ front ++ back → length front ≡ count →
        seat.new.inner.me ≡ (seat.old.inner.me.0, back ++ front) }
{
    for _ in 0..count {
        table.turn(seat);
    }
}

/// Takes the first slots of a process: those that it writes, in turn, and then those that it reads.
pub(crate) fn take_slots<T: Planned>(
    table: &FamilyTable<T>,
    seat: &mut FamilySeat<T>,
    n: usize,
    who: usize,
)
    requires own { seat.old.inner.table_id ≡ table.now.rows.inner.shared.table_id }
    requires key { table.now.rows.inner.shared.key.processes ≡ n }
    requires inside { who < n }
    requires first { seat.old.inner.me ≡ (Has (first_process table.now.rows.inner.shared.key.first n who ∷ []), []) }
    ensures own { seat.new.inner.table_id ≡ seat.old.inner.table_id }
    ensures ready { IsReady table.now.rows.inner.shared.key.first n who seat.new.inner.me }
{
    for at in 0..n - 1 {
        table.take_put(seat, place(n, who, other(who, at)));
        table.turn(seat);
    }
    for at in 0..n - 1 {
        table.take_get(seat, place(n, other(who, at), who));
        table.turn(seat);
    }
}

/// Takes the slot in the middle in place of the seat's first, where the cell's word has the mark, and tells whether it
/// had. Then the first slot has the answer, the last one again where there was no mark.
#[inline]
pub(crate) fn newest<T: Planned, K: Opening<T>>(
    table: &FamilyTable<T>,
    seat: &mut FamilySeat<T>,
    cell: usize,
    slot: u64,
) -> (u64, bool)
    requires opening { (K.first ≡ table.now.rows.inner.shared.key.first ∷ [])
        × (K.processes ≡ table.now.rows.inner.shared.key.processes)
        × (K.limit ≡ table.now.rows.inner.shared.key.limit) }
    requires own { seat.old.inner.table_id ≡ table.now.rows.inner.shared.table_id }
    requires place { cell < (triples table.now.rows.inner.shared.key.processes).cells }
    requires idle { (v : Process (TripleSight T)) × (g : ReaderNotes T) × (cs : List (ℕ × T))
        × HasReader seat.old.inner.me cell v g
        × (seat.old.inner.me.1 ≡ (slot_at cell g.slot, g.at_hand.value) ∷ cs)
        × (g.has ≡ 1) × (g.asked ≡ 0) × (g.slot < 3) × (slot ≡ g.slot)
        × MayDecide (plan_of T.plan table.now.rows.inner.shared.key) v cell g }
    ensures own { seat.new.inner.table_id ≡ seat.old.inner.table_id }
    ensures looked { (v : Process (TripleSight T)) (g : ReaderNotes T) (cs : List (ℕ × T)) →
        HasReader seat.old.inner.me cell v g → seat.old.inner.me.1 ≡ (slot_at cell g.slot, g.at_hand.value) ∷ cs →
        g.slot < 3 → slot ≡ g.slot → HasLooked T.fits T.rises cell v g cs seat.new.inner.me
        result.0 result.1 }
    ensures shown { ShowsAll T.plan table.now.rows.inner.shared.key seat.new.inner.me }
{
    let found = table.look::<K>(seat, cell);
    if found < 4 {
        return (slot, false);
    }
    let middle = table.fetch::<K>(seat, cell, slot);
    (middle % 4, true)
}

/// Whether an answer is shown: always where it is to be shown again, and else where the mark was found.
#[inline(always)]
pub(crate) fn shows(again: bool, marked: bool) -> bool
    ensures { result ≡ (again || marked) }
{
    again || marked
}

/// Shows the record in the seat's first slot, where it is to be shown.
#[inline(always)]
pub(crate) fn show_where<T: Planned, L: Sees<T>>(
    table: &FamilyTable<T>,
    seat: &mut FamilySeat<T>,
    slot: usize,
    shows: bool,
    seen: &mut L,
)
    requires own { seat.old.inner.table_id ≡ table.now.rows.inner.shared.table_id }
    requires held { (x : T) × (cs : List (ℕ × T)) × (seat.old.inner.me.1 ≡ (slot, x) ∷ cs) }
    ensures own { seat.new.inner.table_id ≡ seat.old.inner.table_id }
    ensures same { seat.new.inner.me ≡ seat.old.inner.me }
    ensures shown { shows ≡ true → (item : T) (cs : List (ℕ × T)) → seat.old.inner.me.1 ≡ (slot, item) ∷ cs →
        L.sees seen.old item seen.new }
    ensures unshown { shows ≡ false → seen.new ≡ seen.old }
{
    if shows {
        table.rows.show(seat, slot, seen);
    }
}
