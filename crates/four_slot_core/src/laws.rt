//! Laws over the definitions.

ghost use Rattle.std.specs.Prelude.{◌≡◌, ◌≢◌, ℕ, ◌+◌, ◌<◌, List, [], ◌∷◌, ◌++◌, length};
ghost use Rattle.std.specs.Prelude.{slice_get, IsSome, Option, false};
ghost use Rattle.four_slot_core.specs.declared.state.State.{State};
ghost use Rattle.four_slot_core.specs.declared.state.Stage.TheVariants.{W5};
ghost use Rattle.four_slot_core.specs.declared.event.ReadEvent.{ReadEvent};
ghost use Rattle.four_slot_core.specs.declared.event.WriteEvent.{WriteEvent};
ghost use Rattle.four_slot_core.specs.declared.schedule.Turn.{Turn};
ghost use Rattle.four_slot_core.specs.Accesses.{Accesses, Agree, IsClear, IsFreshRead};
ghost use Rattle.four_slot_core.specs.CellSlots.{IsOverSafeSlots};
ghost use Rattle.four_slot_core.specs.Counts.{IsCounted};
ghost use Rattle.four_slot_core.specs.Events.{after_read, after_write, opening_state};
ghost use Rattle.four_slot_core.specs.Events.{reader_state, record_in, slot_number};
ghost use Rattle.four_slot_core.specs.Freshness.{floor_after, IsFresh, prev_after};
ghost use Rattle.four_slot_core.specs.Interleaving.{last_finished, Leads, Reads, Writes};
ghost use Rattle.four_slot_core.specs.Invariant.{HasIndex, HasSlot, IsSound, IsUnmet, last_after};
ghost use Rattle.four_slot_core.specs.SafeSlots.{IsMarked, IsSafe, slot_trace, slot_writes, SlotRead};
ghost use Rattle.four_slot_core.specs.Traces.{Moment, moment_at, moments_from, moments_of, reads_of, RisesFrom};
ghost use Rattle.four_slot_core.specs.Traces.{source_record, then_step};
ghost use Rattle.four_slot_core.specs.Traces.{trace, writes_of};

use crate::cell::CellCore;
use crate::state::Slot;

/// A new cell whose reader stands just after R3 with this slot, all bits 0. No schedule of a new cell leads to a slot
/// read that meets a slot write, so only such a state shows what the noise does.
pub fn reader_at<R: Copy>(opening: R, noise: R, slot: u8) -> CellCore<R>
    requires { slot < 4 }
    ensures { (p : Slot) × (slot_number p ≡ slot) × (result ≡ reader_state opening noise p) }
{
    CellCore::with_reader(opening, noise, Slot::numbered(slot))
}

/// A cell that is stepped from any state, also one with a reader and a writer in one slot, answers as safe slots do:
/// each slot read that ends is judged by the intervals of the slot accesses alone.
pub fn slots_are_safe<R>()
    ensures { (s : State R) (items : ℕ → R) (moments : List Moment) → IsMarked s → RisesFrom 1 moments →
        let t = slot_trace s items moments in
        (m : ℕ) (read : SlotRead R) → slice_get t.reads m ≡ Some read →
        IsSafe (λ slot. record_in s.records slot) s.noise (slot_writes t) read }
{}

/// A cell that is stepped from its opening in any interleaving, at positions that rise, answers as a cell over safe
/// slots: its slot writes and slot reads are those of its steps, and each slot read is judged by their intervals alone.
pub fn cells_are_over_safe_slots<R>()
    ensures { (opening noise : R) (items : ℕ → R) (next : ℕ) (moments : List Moment) → RisesFrom next moments →
        IsOverSafeSlots opening noise items (trace opening noise items moments) }
{}

/// The opening is sound, and each event leads from a sound state to a sound one.
pub fn events_keep_soundness<R>()
    ensures opening { (opening noise : R) → IsSound (opening_state opening noise) opening }
    ensures write { (x : R) (s : State R) (last : R) → IsSound s last →
        IsSound (after_write s.writer x s) (last_after s.writer s last) }
    ensures read { (s : State R) (last : R) → IsSound s last → IsSound (after_read s.reader s) last }
{}

/// In a sound state a reader and a writer that have their slots have different ones, so no
/// slot read meets a slot write.
pub fn sound_slots_are_clear<R>()
    ensures apart { (s : State R) (last : R) → IsSound s last →
        HasIndex s.reader → HasSlot s.writer → s.write ≢ s.read }
    ensures opening { (opening noise : R) → IsUnmet (opening_state opening noise) }
    ensures write { (x : R) (s : State R) (last : R) → IsSound s last →
        IsUnmet s → IsUnmet (after_write s.writer x s) }
    ensures read { (s : State R) (last : R) → IsSound s last → IsUnmet s → IsUnmet (after_read s.reader s) }
{}

/// The numbers of the records in the slots stay fresh, for any numbering in which each write's is the next.
pub fn events_keep_freshness<R>()
    ensures opening { (num : R → ℕ) (opening noise : R) → num opening ≡ 0 →
        IsFresh num (opening_state opening noise) opening 0 0 }
    ensures write { (num : R → ℕ) (x : R) (s : State R) (last : R) (prev floor : ℕ) →
        (s.writer ≡ W5 → num x ≡ num last + 1) → IsSound s last → IsFresh num s last prev floor →
        IsFresh num (after_write s.writer x s) (last_after s.writer s last) prev floor }
    ensures read { (num : R → ℕ) (s : State R) (last : R) (prev floor : ℕ) →
        IsSound s last → IsFresh num s last prev floor →
        let prev = prev_after s.reader num s prev in
        let floor = floor_after s.reader num last floor in
        IsFresh num (after_read s.reader s) last prev floor }
{}

/// An interleaving grows at its end by an event of either side. It leads from a sound state to one that is sound with
/// the last write that the writer's events finished.
pub fn interleavings_grow<R>()
    ensures write { (ws : List (WriteEvent R)) (rs : List (ReadEvent R)) (s t u : State R) (e : WriteEvent R) →
        Leads ws rs s t → Writes e t u → Leads (ws ++ e ∷ []) rs s u }
    ensures read { (ws : List (WriteEvent R)) (rs : List (ReadEvent R)) (s t u : State R) (e : ReadEvent R) →
        Leads ws rs s t → Reads e t u → Leads ws (rs ++ e ∷ []) s u }
    ensures sound { (ws : List (WriteEvent R)) (rs : List (ReadEvent R)) (s t : State R) (last : R) →
        Leads ws rs s t → IsSound s last → IsSound t (last_finished ws s.item last) }
{}

/// A cell that is stepped in any interleaving, at positions that rise from any number on, is clear; and each read
/// that has ended is fresh and answers the record of its source. The first steps of such an interleaving are one too,
/// so this holds after each step.
pub fn interleavings_are_clear_and_fresh<R>()
    ensures clear { (opening noise : R) (items : ℕ → R) (next : ℕ) (moments : List Moment) → RisesFrom next moments →
        let t = trace opening noise items moments in IsClear (writes_of t) (reads_of t) }
    ensures fresh { (opening noise : R) (items : ℕ → R) (next : ℕ) (moments : List Moment) → RisesFrom next moments →
        let t = trace opening noise items moments in
        (m : ℕ) (answer : R) → slice_get t.answers m ≡ Some answer →
        (n : ℕ) × IsFreshRead (writes_of t) (reads_of t) m n × (answer ≡ source_record opening items n) }
    ensures answered { (opening noise : R) (items : ℕ → R) (next : ℕ) (moments : List Moment) → RisesFrom next moments →
        let t = trace opening noise items moments in
        (m : ℕ) → IsSome ((reads_of t).at m 4) → IsSome (slice_get t.answers m) }
    ensures first { (next : ℕ) (moments more : List Moment) →
        RisesFrom next (moments ++ more) → RisesFrom next moments }
    ensures played { (n : ℕ) (turns : List Turn) → RisesFrom n (moments_from n turns) }
{}

/// The steps, slots and answers of such a cell are as many as the stages of its two sides say; an operation under way
/// that has its slot has the last one.
pub fn interleavings_are_counted<R>()
    ensures { (opening noise : R) (items : ℕ → R) (next : ℕ) (moments : List Moment) → RisesFrom next moments →
        (end : ℕ) × IsCounted (trace opening noise items moments) end }
{}

/// One more step of an interleaving is a step of its trace, and what a trace shows depends on the items of the
/// writes that it has begun alone.
pub fn interleavings_go_on<R>()
    ensures step { (opening noise : R) (items : ℕ → R) (moments : List Moment) (m : Moment) →
        trace opening noise items (moments ++ m ∷ [])
        ≡ then_step items (trace opening noise items moments) m.turn m.at }
    ensures items { (opening noise : R) (items others : ℕ → R) (moments : List Moment) →
        ((k : ℕ) → k < length (trace opening noise items moments).write_slots → items k ≡ others k) →
        trace opening noise items moments ≡ trace opening noise others moments }
{}

/// The steps of one cell among other events, with the positions of the events, rise, and one more event adds its own
/// step where it is the cell's. So the laws hold of each of many cells that are stepped in one schedule.
pub fn positions_rise<E>()
    ensures rise { (turn : E → Option Turn) (n : ℕ) (events : List E) → RisesFrom n (moments_of turn n events) }
    ensures more { (turn : E → Option Turn) (n : ℕ) (events : List E) (e : E) →
        moments_of turn n (events ++ e ∷ []) ≡ moments_of turn n events ++ moment_at (turn e) (n + length events) }
{}

/// Accesses that agree are clear and fresh alike.
pub fn agreeing_accesses_are_alike()
    ensures clear { (writer v reader r : Accesses) → Agree writer v → Agree reader r →
        IsClear writer reader → IsClear v r }
    ensures fresh { (writer v reader r : Accesses) → Agree writer v → Agree reader r →
        (m n : ℕ) → IsFreshRead writer reader m n → IsFreshRead v r m n }
{}
