//! The seats of processes, and what all of them have done.
ghost use Rattle.std.specs.Prelude.{◌≡◌, ◌<◌, List, [], ◌∷◌, vec_len, vec_capacity};
ghost use Rattle.cell_contract.specs.Ends.{Each};
ghost use Rattle.family_table.specs.declared.notes.Process.{Process};
ghost use Rattle.family_table.specs.declared.notes.View.TheVariants.{Has};
ghost use Rattle.family_table.specs.Ends.{AllDone};
ghost use Rattle.family_table.specs.Seated.{known_by, AllShown, HasAll, HaveShown};

use crate::mechanism::Mechanism;
use crate::table::{FamilySeat, Rows};

/// The right to write and to read as one of the processes, with what its mechanism remembers of each register.
#[derive(Drop)]
pub struct ProcessSeat<T: Copy, V, X: Copy> {
    pub seat: FamilySeat<T, V>,
    pub processes: usize,
    pub who: usize,
    pub stored: X,
    /// The opening: the notes' default in proofs.
    pub spare: T,
}

/// A receipt of a process for all that it has written.
#[derive(Drop)]
pub struct ProcessReceipt<T: Copy, V> {
    pub seat: FamilySeat<T, V>,
    pub processes: usize,
    pub from: usize,
    /// The opening: the record's default in proofs.
    pub spare: T,
}

/// One seat that has all processes.
pub fn gathered<T: Copy, V, M: Mechanism<T, V>, X: Copy>(
    rows: &Rows<T, V, M>,
    seats: Vec<ProcessSeat<T, V, X>>,
) -> FamilySeat<T, V>
    requires some { 0 < vec_len seats }
    requires own { Each (λ i s. s.seat.inner.table_id ≡ rows.now.inner.shared.table_id) seats.items }
    requires one { Each (λ i s. s.seat.inner.me.0 ≡ Has (known_by s ∷ [])) seats.items }
    ensures own { result.inner.table_id ≡ rows.now.inner.shared.table_id }
    ensures all { HasAll result seats.items }
{
    let mut seats = seats;
    let Some(last) = seats.pop() else {
        unreachable!();
    };
    let ProcessSeat {
        seat,
        processes: _,
        who: _,
        stored: _,
        spare: _,
    } = last;
    let mut all = seat;
    for _ in 0..seats.len() {
        let Some(next) = seats.pop() else {
            unreachable!();
        };
        let ProcessSeat {
            seat: other,
            processes: _,
            who: _,
            stored: _,
            spare: _,
        } = next;
        rows.gather(&mut all, other);
    }
    all
}

/// Shows what all seats have done so far, where `all` has what those that were taken out before know.
fn show_all<T: Copy, V, M: Mechanism<T, V>, X: Copy>(
    rows: &Rows<T, V, M>,
    seats: &mut Vec<ProcessSeat<T, V, X>>,
    all: FamilySeat<T, V>,
) -> FamilySeat<T, V>
    requires own { (all.inner.table_id ≡ rows.now.inner.shared.table_id)
        × Each (λ i s. s.seat.inner.table_id ≡ rows.now.inner.shared.table_id) seats.old.items }
    requires one { Each (λ i s. s.seat.inner.me.0 ≡ Has (known_by s ∷ [])) seats.old.items }
    requires bare { (ps : List (Process V)) × (all.inner.me ≡ (Has ps, [])) }
    ensures same { (seats.new.items ≡ seats.old.items) × (vec_capacity seats.new ≡ vec_capacity seats.old) }
    ensures all { (result.inner.table_id ≡ all.inner.table_id) × (result.inner.me ≡ all.inner.me) }
    ensures shown { (ps : List (Process V)) → all.inner.me ≡ (Has ps, []) →
        HaveShown (AllDone M.blank (M.layout rows.now.inner.shared.key.processes)
        (M.done rows.now.inner.shared.key.first) rows.now.inner.shared.key.processes) ps seats.old.items }
{
    let mut all = all;
    let Some(mut last) = seats.pop() else {
        rows.so_far(&mut all);
        return all;
    };
    let mut next = rows.lift(&mut last.seat);
    rows.put(&mut next, all);
    let mut next = show_all(rows, seats, next);
    let one = rows.part(&mut next);
    rows.put(&mut last.seat, one);
    seats.push_reserved(last);
    next
}

/// Shows what all seats have done so far. Nothing changes.
pub fn show<T: Copy, V, M: Mechanism<T, V>, X: Copy>(
    rows: &Rows<T, V, M>,
    seats: &mut Vec<ProcessSeat<T, V, X>>,
)
    requires some { 0 < vec_len seats.old }
    requires own { Each (λ i s. s.seat.inner.table_id ≡ rows.now.inner.shared.table_id) seats.old.items }
    requires one { Each (λ i s. s.seat.inner.me.0 ≡ Has (known_by s ∷ [])) seats.old.items }
    ensures same { (seats.new.items ≡ seats.old.items) × (vec_capacity seats.new ≡ vec_capacity seats.old) }
    ensures shown { AllShown
        (AllDone M.blank (M.layout rows.now.inner.shared.key.processes)
        (M.done rows.now.inner.shared.key.first) rows.now.inner.shared.key.processes) seats.old.items }
{
    let Some(mut last) = seats.pop() else {
        unreachable!();
    };
    let all = rows.lift(&mut last.seat);
    let all = show_all(rows, seats, all);
    rows.put(&mut last.seat, all);
    seats.push_reserved(last);
}
