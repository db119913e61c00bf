//! Laws over the definitions.

ghost use Rattle.std.specs.Prelude.{◌≡◌, ◌↔◌, ◌+◌, ◌-◌, ◌*◌, ◌<◌, ◌≤◌, ℕ, List, [], ◌∷◌, ◌++◌, length, slice_get};
ghost use Rattle.std.specs.Prelude.{Option, Some};
ghost use Rattle.history_core.specs.declared.history.Op.{Op};
ghost use Rattle.history_core.specs.declared.history.Kind.TheVariants.{Write};
ghost use Rattle.history_core.specs.Orders.{IsAtomicOrder, latest, RefusesLawfully};
ghost use Rattle.matrix_core.specs.declared.stamp.Stamp.{Stamp};
ghost use Rattle.matrix_core.specs.declared.stamp.Stamped.{Stamped};
ghost use Rattle.matrix_core.specs.Choices.{IsAtMost};
ghost use Rattle.matrix_core.specs.Stamps.{IsBelow};
ghost use Rattle.matrix_core.specs.Lines.{first_record};
ghost use Rattle.matrix_core.specs.Listings.{IsInOrder};
ghost use Rattle.board_history.specs.Accesses.{HasDoneNothing, IsInterval, MakesCall};
ghost use Rattle.board_history.specs.BoardRuns.{Called, Did, IsBoardRun, IsProcess};
ghost use Rattle.board_history.specs.CutOff.{IsPart, ReadsColumn, WritesRow};
ghost use Rattle.board_history.specs.CutOffInstances.{cell_ops, cell_run, cell_stamps, cell_steps, column_ops};
ghost use Rattle.board_history.specs.CutOffInstances.{column_run, column_stamps, column_steps, IsWorkedOut, kept_run};
ghost use Rattle.board_history.specs.CutOffInstances.{kept_steps, row_ops, row_run, row_run_of, row_stamps, row_steps};
ghost use Rattle.board_history.specs.HistoriesSoFar.{IsAtomicRunSoFar, IsHistorySoFar, StandIfChosen};
ghost use Rattle.board_history.specs.RunsSoFar.{IsBoardRunSoFar, IsProcessSoFar};
ghost use Rattle.board_history.specs.Instances.{found_early, found_read, reads_opening, reads_seven, seven};
ghost use Rattle.board_history.specs.Instances.{silent_before, silent_read, two_processes, zero_first};
ghost use Rattle.board_history.specs.Histories.{ChoseFrom, IsGreatestOwn, IsHistory};
ghost use Rattle.board_history.specs.OneRegister.{IsOneOrder, Named};

/// Every run of a board whose processes make their steps in one time is a history, the order of its calls by stamp is
/// atomic by their intervals, and it refuses lawfully. After it the register holds the greatest record that any process
/// has.
pub fn runs_are_atomic<V>()
    ensures atomic { (width n limit : ℕ) (opening : V) (steps : List ℕ) (did : ℕ → Did V)
        (ops : List (Op V)) (stamps : List (Option Stamp)) (order : List ℕ) →
        IsBoardRun width n limit (first_record opening) steps did → IsHistory n did ops stamps →
        IsInOrder ops stamps order → IsAtomicOrder (λ x y. x ≡ y) opening ops order }
    ensures lawful { (width n limit : ℕ) (opening : V) (steps : List ℕ) (did : ℕ → Did V)
        (ops : List (Op V)) (stamps : List (Option Stamp)) (order : List ℕ) →
        IsBoardRun width n limit (first_record opening) steps did → IsHistory n did ops stamps →
        IsInOrder ops stamps order → RefusesLawfully (record { first = 0; limit = limit } ∷ []) ops order }
    ensures last { (width n limit : ℕ) (opening : V) (steps : List ℕ) (did : ℕ → Did V)
        (ops : List (Op V)) (stamps : List (Option Stamp)) (order : List ℕ) (greatest : Stamped V) →
        IsBoardRun width n limit (first_record opening) steps did → IsHistory n did ops stamps →
        IsInOrder ops stamps order → IsGreatestOwn n (first_record opening) did greatest →
        latest opening ops order ≡ Some greatest.item }
    ensures there { (width n limit : ℕ) (opening : V) (steps : List ℕ) (did : ℕ → Did V) →
        IsBoardRun width n limit (first_record opening) steps did →
        (ops : List (Op V)) × (stamps : List (Option Stamp)) × (order : List ℕ)
        × IsHistory n did ops stamps × IsInOrder ops stamps order }
{}

/// What calls of a run know of each other. A call that begins after another one had ended chooses no smaller stamp, and
/// a greater one where it is a write. What a call chose is the opening, or the record of a write. And calls that chose
/// one stamp chose one record.
pub fn calls_heed<V>()
    ensures rises { (width n limit : ℕ) (opening : V) (steps : List ℕ) (did : ℕ → Did V)
        (i j k m : ℕ) (c d : Called V) →
        IsBoardRun width n limit (first_record opening) steps did → i < n → j < n → slice_get (did i).calls k ≡ Some c →
        slice_get (did j).calls m ≡ Some d → c.end < d.begin →
        IsAtMost c.chosen.stamp d.chosen.stamp × (d.kind ≡ Write → IsBelow c.chosen.stamp d.chosen.stamp) }
    ensures written { (width n limit : ℕ) (opening : V) (steps : List ℕ) (did : ℕ → Did V)
        (i k : ℕ) (c : Called V) → IsBoardRun width n limit (first_record opening) steps did → i < n →
        slice_get (did i).calls k ≡ Some c → ChoseFrom n (first_record opening) did c }
    ensures agree { (width n limit : ℕ) (opening : V) (steps : List ℕ) (did : ℕ → Did V)
        (i j k m : ℕ) (c d : Called V) →
        IsBoardRun width n limit (first_record opening) steps did → i < n → j < n → slice_get (did i).calls k ≡ Some c →
        slice_get (did j).calls m ≡ Some d → c.chosen.stamp ≡ d.chosen.stamp → c.chosen ≡ d.chosen }
{}

/// All calls of a run have one order, which has those of each process in their order and keeps their intervals, and are
/// those of one register that holds records with their stamps: a read has the very record that is there, and each write
/// raises the stamp.
pub fn calls_are_of_one_register<V>()
    ensures { (width n limit : ℕ) (opening : V) (steps : List ℕ) (did : ℕ → Did V) (last : Stamped V) →
        IsBoardRun width n limit (first_record opening) steps did → IsGreatestOwn n (first_record opening) did last →
        (order : List (Named V)) × IsOneOrder n limit (first_record opening) did last order }
{}

/// What the definitions say of two processes: an answer that was written is a run's, and an answer that is older than a
/// write that had ended before the read began is no run's, whatever number it is given. A read that has its process's
/// own record may tell nobody, and so may one that finds that its record was told by a call that has ended. A read that
/// has another record, and tells nobody, is no run's, and neither is one that finds so before it is so.
pub fn runs_of_two()
    ensures fresh { IsBoardRun 1 2 5 zero_first (0 ∷ 0 ∷ 1 ∷ 1 ∷ []) (two_processes reads_seven) }
    ensures stale { (number : ℕ) →
        IsBoardRun 1 2 5 zero_first (0 ∷ 0 ∷ 1 ∷ 1 ∷ []) (two_processes (reads_opening number)) → ⊥ }
    ensures silent { IsBoardRun 1 2 5 zero_first (1 ∷ 0 ∷ 0 ∷ []) silent_before }
    ensures untold { (number : ℕ) →
        IsBoardRun 1 2 5 zero_first (0 ∷ 0 ∷ 1 ∷ []) (two_processes (silent_read seven number 3)) → ⊥ }
    ensures found { IsBoardRun 1 2 5 zero_first (0 ∷ 0 ∷ 1 ∷ 1 ∷ []) (two_processes (found_read seven 1 3 4)) }
    ensures early { IsBoardRun 2 2 5 zero_first (0 ∷ 0 ∷ 0 ∷ 1 ∷ 1 ∷ 1 ∷ 0 ∷ []) found_early → ⊥ }
{}

/// A process that has done nothing has made its calls, and one call more keeps that it made its calls: so whoever makes
/// a board's calls shows them one by one.
pub fn calls_add_up<V>()
    ensures none { (width n limit i : ℕ) (first : Stamped V) (did : Did V) →
        HasDoneNothing did → IsProcess width n limit first i did }
    ensures more { (width n limit i : ℕ) (first : Stamped V) (old new : Did V) (call : Called V) → 2 ≤ n → 0 < width →
        IsProcess width n limit first i old → MakesCall width n limit first i old new call →
        IsProcess width n limit first i new }
{}

/// *The theorem of runs so far*: wherever each process has come in its last call, and whichever of them never goes on,
/// the calls so far are a history, and their order by stamp is atomic by their intervals and refuses lawfully. A call
/// that is cut off stands in it exactly if it is a write that has chosen, since somebody may have seen it.
pub fn runs_so_far_are_atomic<V>()
    ensures atomic { (width n limit : ℕ) (opening : V) (steps : List ℕ) (did : ℕ → Did V)
        (ops : List (Op V)) (stamps : List (Option Stamp)) (order : List ℕ) →
        IsBoardRunSoFar width n limit (first_record opening) steps did → IsHistorySoFar width n did ops stamps →
        IsInOrder ops stamps order → IsAtomicOrder (λ x y. x ≡ y) opening ops order }
    ensures lawful { (width n limit : ℕ) (opening : V) (steps : List ℕ) (did : ℕ → Did V)
        (ops : List (Op V)) (stamps : List (Option Stamp)) (order : List ℕ) →
        IsBoardRunSoFar width n limit (first_record opening) steps did → IsHistorySoFar width n did ops stamps →
        IsInOrder ops stamps order → RefusesLawfully (record { first = 0; limit = limit } ∷ []) ops order }
    ensures chosen { (width n : ℕ) (did : ℕ → Did V) (ops : List (Op V)) (stamps : List (Option Stamp))
        (order : List ℕ) → IsHistorySoFar width n did ops stamps → IsInOrder ops stamps order →
        StandIfChosen ops stamps order }
    ensures there { (width n limit : ℕ) (opening : V) (steps : List ℕ) (did : ℕ → Did V) →
        IsBoardRunSoFar width n limit (first_record opening) steps did →
        IsAtomicRunSoFar width n limit opening steps did }
{}

/// A run all of whose calls have ended is a run so far, and its histories are its histories so far.
pub fn whole_runs_are_so_far<V>()
    ensures run { (width n limit : ℕ) (opening : V) (steps : List ℕ) (did : ℕ → Did V) →
        IsBoardRun width n limit (first_record opening) steps did →
        IsBoardRunSoFar width n limit (first_record opening) steps did }
    ensures history { (width n limit : ℕ) (opening : V) (steps : List ℕ) (did : ℕ → Did V)
        (ops : List (Op V)) (stamps : List (Option Stamp)) →
        IsBoardRun width n limit (first_record opening) steps did →
        IsHistory n did ops stamps ↔ IsHistorySoFar width n did ops stamps }
{}

/// A process whose calls have all ended, and which then makes some steps of one call more, as many as it likes of its
/// column or of its row, is a process so far.
pub fn calls_may_be_cut_off<V>()
    ensures column { (width n limit i : ℕ) (first : Stamped V) (old new : Did V) → 2 ≤ n → 0 < width →
        IsProcess width n limit first i old → ReadsColumn width n i old new → IsProcessSoFar width n limit first i new }
    ensures row { (width n limit i : ℕ) (first : Stamped V) (old new : Did V) (call : Called V) → 2 ≤ n → 0 < width →
        IsProcess width n limit first i old → WritesRow width n limit first i old new call →
        IsProcessSoFar width n limit first i new }
{}

/// An access of a call that is cut off has been made, is under way, or hasn't begun.
pub fn accesses_may_be_cut_off()
    ensures made { (width access : ℕ) (steps begins ends begins' ends' : List ℕ) →
        IsInterval width steps access begins ends begins' ends' → IsPart width steps access begins ends begins' ends' }
    ensures begun { (width access t : ℕ) (steps begins ends begins' ends' : List ℕ) →
        slice_get steps (access * width) ≡ Some t → length steps ≤ access * width + (width - 1) →
        begins' ≡ begins ++ t ∷ [] → ends' ≡ ends → IsPart width steps access begins ends begins' ends' }
    ensures before { (width access : ℕ) (steps begins ends begins' ends' : List ℕ) →
        length steps ≤ access * width → begins' ≡ begins → ends' ≡ ends →
        IsPart width steps access begins ends begins' ends' }
{}

/// Three runs so far, worked out by hand with their histories and orders: a read that is cut off in its column doesn't
/// stand, and a write that is cut off in its row stands, whether another process was answered it or not. No order with
/// that read is atomic, nor one without that write that was answered; and if a process was told it, and then answers
/// the opening, it is no run so far, whatever number the answer is given. Nor is it one if a process that was told it
/// tells nobody.
pub fn runs_cut_off()
    ensures column { IsWorkedOut 2 2 column_steps column_run column_ops column_stamps (0 ∷ []) }
    ensures row { IsWorkedOut 1 3 row_steps row_run row_ops row_stamps (0 ∷ 1 ∷ []) }
    ensures cell { IsWorkedOut 3 2 cell_steps cell_run cell_ops cell_stamps (1 ∷ 0 ∷ []) }
    ensures read { IsAtomicOrder (λ x y. x ≡ y) 0 column_ops (0 ∷ 1 ∷ []) → ⊥ }
    ensures write { IsAtomicOrder (λ x y. x ≡ y) 0 row_ops (1 ∷ []) → ⊥ }
    ensures stale { (number : ℕ) →
        IsBoardRunSoFar 1 3 5 zero_first row_steps (row_run_of zero_first number) → ⊥ }
    ensures kept { IsBoardRunSoFar 1 3 5 zero_first kept_steps kept_run → ⊥ }
{}
