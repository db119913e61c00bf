//! What a cell promises.
ghost use Rattle.std.specs.Prelude.{◌≡◌, ℕ, ◌+◌, ◌≤◌, List, [], ◌∷◌, ◌++◌, IfOk};
ghost use Rattle.std.specs.Fn.{FnOnceTakesAt, FnOnceReturnsAt};
ghost use Rattle.cell_contract.specs.Running.{IsAnswer, Settled, last_or};
ghost use Rattle.cell_contract.specs.CallsSoFar.{AreCallsSoFar};
ghost use Rattle.cell_contract.specs.Intervals.{AreAtomic, AreFirst, AreHeeded, HaveEnded, IsHeard};
ghost use Rattle.cell_contract.specs.Intervals.{IsNextAnswer, IsNextCall};
ghost use Rattle.cell_contract.specs.Intervals.{known_as, no_times, none_known};
ghost use Rattle.cell_contract.specs.declared.times.Times.{Times};
ghost use Rattle.cell_contract.specs.declared.times.Known.{Known};

use std::alloc::{AllocError, Global};

/// The law of a record that a cell can hold. A program implements it for its own type, and then `Kept`.
pub trait Lawful: Copy {
    // Whether a record obeys its law.
    ghost fits: { Self → Type 0 };

    // Whether the second record may stand after the first.
    ghost rises: { Self → Self → Type 0 };

    ghost reflexive: { (a : Self) → rises a a };

    ghost transitive: { (a b c : Self) → rises a b → rises b c → rises a c };
}

/// A record that threads can share through a cell.
pub trait Kept: Lawful + Send + Sync {}

/// The calls of a cell: one writer's pass and one reader's pass share a record through it. No call waits,
/// and only `make` takes memory.
///
/// The lists of records, the counts, the intervals and the numbers are known to contracts alone. The running program
/// has none of them. A time is the number of a step in the one sequence of the cell's steps, and no time of a clock.
pub trait Calls<T: Lawful>: Sized + Drop {
    /// The right to write.
    type Put: Drop;

    /// The right to read.
    type Get: Drop;

    /// A receipt for the record that was written last.
    type Receipt: Drop;

    // The record that the cell opened with.
    ghost opening: { Self → T };

    // Whether the pass or the receipt is of this cell.
    ghost is_put: { Self → Self.Put → Type 0 };

    ghost is_get: { Self → Self.Get → Type 0 };

    ghost is_receipt: { Self → Self.Receipt → Type 0 };

    // The records written with the pass.
    ghost written: { Self.Put → List T };

    // The pass's answers.
    ghost answers: { Self.Get → List T };

    // The record in the slot that the pass holds, which is its last answer.
    ghost at_hand: { Self.Get → T };

    // The records that the pass was told.
    ghost told: { Self.Get → List T };

    // The record that a receipt names.
    ghost named: { Self.Receipt → T };

    // The control accesses made with the pass.
    ghost put_accesses: { Self.Put → ℕ };

    ghost get_accesses: { Self.Get → ℕ };

    // The calls made with the pass, in the time of the cell's steps.
    ghost put_times: { Self.Put → Times };

    ghost get_times: { Self.Get → Times };

    // The number of each answer among the records written, where the opening has number 0.
    ghost numbers: { Self.Get → List ℕ };

    // The writes of which the pass knows: those that had begun when its last read ended.
    ghost known: { Self.Get → Known T };

    // A time at which the receipt's record was written, and all the writes up to then.
    ghost time_of: { Self.Receipt → ℕ };

    ghost writes_of: { Self.Receipt → Known T };

    // The writes of which the pass was told, of each receipt that it learnt.
    ghost heard: { Self.Get → List (Known T) };

    /// A cell that holds `first`, with its two passes.
    fn make(alloc: Global, first: T) -> Result<(Self, Self::Put, Self::Get), AllocError>
        requires { T.fits first }
        ensures own { IfOk result (λ r. (opening r.0 ≡ first) × is_put r.0 r.1 × is_get r.0 r.2) }
        ensures empty { IfOk result (λ r. (written r.1 ≡ []) × (answers r.2 ≡ []) × (told r.2 ≡ [])) }
        ensures unused { IfOk result (λ r. (put_accesses r.1 ≡ 0) × (get_accesses r.2 ≡ 0)) }
        ensures timeless { IfOk result (λ r. (put_times r.1 ≡ no_times) × (get_times r.2 ≡ no_times)
            × (numbers r.2 ≡ []) × (known r.2 ≡ none_known)) }
        ensures unheard { IfOk result (λ r. heard r.2 ≡ []) };

    /// Shows the record to the reader.
    fn write(&self, put: &mut Self::Put, item: T)
        requires own { is_put self.now put.old }
        requires lawful { T.fits item × T.rises (last_or (opening self.now) (written put.old)) item }
        ensures own { is_put self.now put.new }
        ensures written { written put.new ≡ written put.old ++ item ∷ [] }
        ensures accesses { put_accesses put.new ≤ put_accesses put.old + 3 }
        ensures timed { IsNextCall (put_times put.old) (put_times put.new) };

    /// Shows the record to the reader, and copies it once, into the slot.
    fn write_from(&self, put: &mut Self::Put, item: &T)
        requires own { is_put self.now put.old }
        requires lawful { T.fits item.now × T.rises (last_or (opening self.now) (written put.old)) item.now }
        ensures own { is_put self.now put.new }
        ensures written { written put.new ≡ written put.old ++ item.now ∷ [] }
        ensures accesses { put_accesses put.new ≤ put_accesses put.old + 3 }
        ensures timed { IsNextCall (put_times put.old) (put_times put.new) };

    /// Gives one whole record, which by its law may stand after each that this pass saw or was told. It is the opening
    /// or one of the writes that this pass knows, and the read is atomic by its interval. These writes begin with the
    /// real ones of each receipt that was learnt, and the record is no older than the last of them.
    fn read(&self, get: &mut Self::Get) -> T
        requires { is_get self.now get.old }
        ensures own { is_get self.now get.new }
        ensures answers { answers get.new ≡ answers get.old ++ result ∷ [] }
        ensures told { told get.new ≡ told get.old }
        ensures running { IsAnswer T.fits T.rises (opening self.now) (answers get.old) (told get.old) result }
        ensures accesses { get_accesses get.new ≤ get_accesses get.old + 3 }
        ensures timed { IsNextCall (get_times get.old) (get_times get.new) }
        ensures numbered { IsNextAnswer (opening self.now) (known get.old) (known get.new)
            (numbers get.old) (numbers get.new) (answers get.new) (get_times get.new) result }
        ensures heeds { (heard get.new ≡ heard get.old)
            × AreHeeded (heard get.new) (known get.new) (last_or 0 (numbers get.new)) }
        ensures so_far { AreCallsSoFar T.fits T.rises (opening self.now) (heard get.new) (answers get.new)
            (get_times get.new) };

    /// Lends the same record where it lies, so that nothing is copied: `look` is called once with it.
    fn read_with<R, F: FnOnce(&T) -> R>(&self, get: &mut Self::Get, look: F) -> R
        requires own { is_get self.now get.old }
        requires callable { (x : T) → IsAnswer T.fits T.rises (opening self.now) (answers get.old) (told get.old) x →
            FnOnceTakesAt F.FnOnce look x }
        ensures own { is_get self.now get.new }
        ensures answers { answers get.new ≡ answers get.old ++ at_hand get.new ∷ [] }
        ensures told { told get.new ≡ told get.old }
        ensures running { IsAnswer T.fits T.rises (opening self.now) (answers get.old) (told get.old)
            (at_hand get.new) }
        ensures accesses { get_accesses get.new ≤ get_accesses get.old + 3 }
        ensures timed { IsNextCall (get_times get.old) (get_times get.new) }
        ensures numbered { IsNextAnswer (opening self.now) (known get.old) (known get.new)
            (numbers get.old) (numbers get.new) (answers get.new) (get_times get.new) (at_hand get.new) }
        ensures heeds { (heard get.new ≡ heard get.old)
            × AreHeeded (heard get.new) (known get.new) (last_or 0 (numbers get.new)) }
        ensures so_far { AreCallsSoFar T.fits T.rises (opening self.now) (heard get.new) (answers get.new)
            (get_times get.new) }
        ensures looked { FnOnceReturnsAt F.FnOnce look (at_hand get.new) result };

    /// Gives a receipt for the record that was written last, which carries all the writes: once it is learnt, each
    /// answer may stand after that record by its law, and is that record or was written after it.
    fn tell(&self, put: &mut Self::Put) -> Self::Receipt
        requires { is_put self.now put.old }
        ensures own { is_put self.now put.new × is_receipt self.now result }
        ensures same { (written put.new ≡ written put.old) × (put_accesses put.new ≡ put_accesses put.old) }
        ensures named { named result ≡ last_or (opening self.now) (written put.old) }
        ensures timed { (put_times put.new ≡ put_times put.old) × (time_of result ≡ (put_times put.old).clock) }
        ensures tells { writes_of result ≡ known_as (written put.old) (put_times put.old) };

    /// Takes a receipt in: later reads begin after the write of its record ended.
    fn learn(&self, get: &mut Self::Get, receipt: Self::Receipt)
        requires { is_get self.now get.old × is_receipt self.now receipt }
        ensures own { is_get self.now get.new }
        ensures same { (answers get.new ≡ answers get.old) × (get_accesses get.new ≡ get_accesses get.old) }
        ensures told { told get.new ≡ told get.old ++ named receipt ∷ [] }
        ensures timed { IsHeard (get_times get.old) (get_times get.new) (time_of receipt) }
        ensures numbers { (numbers get.new ≡ numbers get.old) × (known get.new ≡ known get.old) }
        ensures heard { heard get.new ≡ heard get.old ++ writes_of receipt ∷ [] };

    /// Ends the cell. Only here do the two lists meet: each answer is the opening or a whole written record, in their
    /// order, and all calls are atomic by their intervals.
    fn finish(self, put: Self::Put, get: Self::Get)
        requires { is_put self put × is_get self get }
        ensures settled { Settled (opening self ∷ written put) (answers get) }
        ensures atomic { AreAtomic (opening self) (written put) (put_times put) (answers get)
            (numbers get) (get_times get) }
        ensures ended { HaveEnded (put_times put) }
        ensures known { AreFirst (known get) (written put) (put_times put) };
}

/// A cell that threads can share.
pub trait Cell<T: Kept>: Calls<T> + Send + Sync {}
