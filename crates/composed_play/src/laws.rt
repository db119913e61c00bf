//! Laws over the definitions.

ghost use Rattle.std.specs.Prelude.{◌≡◌, ◌<◌, ◌+◌, ℕ, List, length, Option, Some, IsSome, ◌-◌, ◌*◌, slice_get};
ghost use Rattle.history_core.specs.declared.history.Op.{Op};
ghost use Rattle.history_core.specs.Schedules.{IsOperation, IsPlayed, Span, Overruns};
ghost use Rattle.history_core.specs.declared.history.Kind.{Kind};
ghost use Rattle.four_slot_core.specs.Accesses.{IsClear, IsFreshRead};
ghost use Rattle.four_slot_core.specs.CellSlots.{IsOverSafeSlots};
ghost use Rattle.four_slot_core.specs.Traces.{source_record};
ghost use Rattle.matrix_core.specs.declared.stamp.Stamp.{Stamp};
ghost use Rattle.matrix_core.specs.Choices.{Choice, HasChoices};
ghost use Rattle.matrix_core.specs.declared.stamp.Stamped.{Stamped};
ghost use Rattle.matrix_core.specs.ByAccesses.{IsCut, chooses_at};
ghost use Rattle.matrix_core.specs.Lines.{first_record, other};
ghost use Rattle.composed_play.specs.Boards.{cell_trace, column_accesses, IsBoardRun};
ghost use Rattle.composed_play.specs.Boards.{noise_record, row_accesses, SeesCells};
ghost use Rattle.composed_play.specs.BoardSteps.{chosen_in};

/// The run of a term of a composed board has choices by the law of choices. Each of its cells is clear and fresh, by
/// the slots of the report and the positions of the schedule, and a read of it answers the record with the number of
/// its source.
pub fn boards_choose<R>()
    ensures chosen { (at : ℕ) (span : Span R) (opening noise : R) (ops : List (Op R)) (stamps : List (Option Stamp))
        (slot : ℕ → ℕ → ℕ → Option ℕ) (chosen : ℕ → ℕ → Stamped R) →
        IsCut 5 span → IsBoardRun at span opening noise ops stamps slot chosen →
        IsPlayed at span ops → (choices : List (Choice R)) × HasChoices opening span.limit ops stamps choices }
    ensures clear { (at : ℕ) (span : Span R) (opening noise : R) (ops : List (Op R)) (stamps : List (Option Stamp))
        (slot : ℕ → ℕ → ℕ → Option ℕ) (chosen : ℕ → ℕ → Stamped R) →
        IsCut 5 span → IsBoardRun at span opening noise ops stamps slot chosen →
        (i j write read : ℕ) → other i write ≡ j → write + 1 < length span.plans → other j read ≡ i →
        read + 1 < length span.plans →
        IsClear (row_accesses at span slot i write) (column_accesses at span slot j read) }
    ensures fresh { (at : ℕ) (span : Span R) (opening noise : R) (ops : List (Op R)) (stamps : List (Option Stamp))
        (slot : ℕ → ℕ → ℕ → Option ℕ) (chosen : ℕ → ℕ → Stamped R) →
        IsCut 5 span → IsBoardRun at span opening noise ops stamps slot chosen →
        (i j write read : ℕ) → other i write ≡ j → write + 1 < length span.plans → other j read ≡ i →
        read + 1 < length span.plans → (m : ℕ) → IsSome ((column_accesses at span slot j read).at m 4) →
        (n : ℕ) × IsFreshRead (row_accesses at span slot i write) (column_accesses at span slot j read) m n
        × (slice_get (cell_trace at span opening noise chosen i j).answers m
        ≡ Some (source_record (first_record opening) (chosen i) n)) }
{}

/// Each cell of a composed board answers as a four-slot cell over safe slots, whatever its writes take.
pub fn boards_are_over_safe_slots<R>()
    ensures { (at : ℕ) (span : Span R) (opening noise : R) (chosen : ℕ → ℕ → Stamped R) (i j : ℕ) →
        IsOverSafeSlots (first_record opening) (noise_record noise) (chosen i)
        (cell_trace at span opening noise chosen i j) }
{}

/// Each operation that chooses in the steps of a term of a composed board has a kind, and saw the answers of the cells
/// of its column, each of which is a cell stepped at the positions of its accesses.
pub fn boards_see<R>()
    ensures { (at : ℕ) (span : Span R) (opening noise : R) → IsCut 5 span →
        ((step : ℕ) → ¬ Overruns span step) → (i k t : ℕ) → chooses_at at span 5 i k ≡ Some t →
        (kind : Kind) × ((c : Choice R) → c.who ≡ i →
        record { stamp = c.stamp; item = c.item } ≡ chosen_in at span opening noise i k →
        c.kind ≡ kind → SeesCells at span opening noise (chosen_in at span opening noise) c k) }
{}

/// Two runs of one term of a composed board agree: on what each operation chose, on the slot of each access, and on the
/// stamps and answers that are told. So the relation is as exact as a function of the schedule.
pub fn boards_agree<R>()
    ensures chosen { (at : ℕ) (span : Span R) (opening noise : R) (ops others : List (Op R))
        (stamps other_stamps : List (Option Stamp)) (slot other_slot : ℕ → ℕ → ℕ → Option ℕ)
        (chosen other_chosen : ℕ → ℕ → Stamped R) → IsCut 5 span → IsPlayed at span ops → IsPlayed at span others →
        IsBoardRun at span opening noise ops stamps slot chosen →
        IsBoardRun at span opening noise others other_stamps other_slot other_chosen →
        (i k t : ℕ) → chooses_at at span 5 i k ≡ Some t → chosen i k ≡ other_chosen i k }
    ensures slots { (at : ℕ) (span : Span R) (opening noise : R) (ops others : List (Op R))
        (stamps other_stamps : List (Option Stamp)) (slot other_slot : ℕ → ℕ → ℕ → Option ℕ)
        (chosen other_chosen : ℕ → ℕ → Stamped R) → IsCut 5 span → IsPlayed at span ops → IsPlayed at span others →
        IsBoardRun at span opening noise ops stamps slot chosen →
        IsBoardRun at span opening noise others other_stamps other_slot other_chosen →
        (i k access : ℕ) → access < 2 * (length span.plans - 1) → slot i k access ≡ other_slot i k access }
    ensures stamps { (at : ℕ) (span : Span R) (opening noise : R) (ops others : List (Op R))
        (stamps other_stamps : List (Option Stamp)) (slot other_slot : ℕ → ℕ → ℕ → Option ℕ)
        (chosen other_chosen : ℕ → ℕ → Stamped R) → IsCut 5 span → IsPlayed at span ops → IsPlayed at span others →
        IsBoardRun at span opening noise ops stamps slot chosen →
        IsBoardRun at span opening noise others other_stamps other_slot other_chosen →
        (p q k : ℕ) (op other_op : Op R) → slice_get ops p ≡ Some op → slice_get others q ≡ Some other_op →
        IsOperation at span k op → IsOperation at span k other_op → op.who ≡ other_op.who →
        slice_get stamps p ≡ slice_get other_stamps q }
    ensures answers { (at : ℕ) (span : Span R) (opening noise : R) (ops others : List (Op R))
        (stamps other_stamps : List (Option Stamp)) (slot other_slot : ℕ → ℕ → ℕ → Option ℕ)
        (chosen other_chosen : ℕ → ℕ → Stamped R) → IsCut 5 span → IsPlayed at span ops → IsPlayed at span others →
        IsBoardRun at span opening noise ops stamps slot chosen →
        IsBoardRun at span opening noise others other_stamps other_slot other_chosen →
        (p q k : ℕ) (op other_op : Op R) → slice_get ops p ≡ Some op → slice_get others q ≡ Some other_op →
        IsOperation at span k op → IsOperation at span k other_op → op.who ≡ other_op.who →
        (end : ℕ) → op.ends ≡ Some end → other_op.ends ≡ Some end → op.item ≡ other_op.item }
{}
