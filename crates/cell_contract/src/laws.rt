//! Laws over the definitions: what it is to be atomic by intervals.
ghost use Rattle.std.specs.Prelude.{◌≡◌, ℕ, List, [], ◌∷◌, slice_get, Some};
ghost use Rattle.history_core.specs.declared.history.Op.{Op};
ghost use Rattle.history_core.specs.Orders.{IsAtomicOrder};
ghost use Rattle.cell_contract.specs.Intervals.{AreAtomic, no_times, one_read, one_write, two_reads, write_begun};
ghost use Rattle.history_core.specs.Registers.{intervals};
ghost use Rattle.cell_contract.specs.CallsSoFar.{HaveOneOrder, LaterReadsRise, ReadsRiseFromReceipts};
ghost use Rattle.cell_contract.specs.Histories.{AreOps, IsByNumbers};
ghost use Rattle.cell_contract.specs.declared.times.Times.{Times};

use crate::Lawful;

/// Where the calls of a cell are atomic by their intervals, each order of them by number is an atomic
/// order of their history: it lists each call once, keeps precedence, and each read in it has the latest
/// record. And there is such an order.
pub fn calls_are_atomic<R>()
    ensures atomic { (opening : R) (written : List R) (writes : Times) (answers : List R)
        (numbers : List ℕ) (reads : Times) (ops : List (Op R)) (number : ℕ → ℕ) (order : List ℕ) →
        AreAtomic opening written writes answers numbers reads →
        AreOps written writes answers numbers reads ops number → IsByNumbers ops number order →
        IsAtomicOrder (λ x y. x ≡ y) opening ops order }
    ensures ordered { (opening : R) (written : List R) (writes : Times) (answers : List R)
        (numbers : List ℕ) (reads : Times) → AreAtomic opening written writes answers numbers reads →
        (ops : List (Op R)) × (number : ℕ → ℕ) × (order : List ℕ)
        × AreOps written writes answers numbers reads ops number
        × IsByNumbers ops number order × IsAtomicOrder (λ x y. x ≡ y) opening ops order }
{}

/// A write of 8 over 7, a read that meets it, and a later one: the first may have 7 and the second 8. The second may
/// not have 7, whatever the numbers.
pub fn stale_reads_are_refused()
    ensures atomic { AreAtomic {T = ℕ} 7 (8 ∷ []) one_write (7 ∷ 8 ∷ []) (0 ∷ 1 ∷ []) two_reads }
    ensures refused { (numbers : List ℕ) → AreAtomic {T = ℕ} 7 (8 ∷ []) one_write (7 ∷ 7 ∷ []) numbers two_reads → ⊥ }
{}

/// Where the calls of a cell are atomic by their intervals, they have one order.
pub fn calls_have_one_order<R>()
    ensures { (opening : R) (written : List R) (writes : Times) (answers : List R) (numbers : List ℕ) (reads : Times) →
        AreAtomic opening written writes answers numbers reads → HaveOneOrder opening written writes answers reads }
{}

/// A read that meets a write of 8 over 7 may have 8: then the write, which is under way, stands in each order of the
/// two. It may have nothing that no write has begun.
pub fn writes_under_way_stand()
    ensures order { HaveOneOrder {T = ℕ} 7 (8 ∷ []) write_begun (8 ∷ []) one_read }
    ensures stands { (o : HaveOneOrder {T = ℕ} 7 (8 ∷ []) write_begun (8 ∷ []) one_read) →
        (i : ℕ) × (slice_get o.order i ≡ Some 0) }
    ensures refused { HaveOneOrder {T = ℕ} 7 [] no_times (8 ∷ []) one_read → ⊥ }
{}

/// What a read shows of all calls so far keeps the records' law: a read that begins after another one, or after a write
/// of which a receipt told, answers no older record.
pub fn later_reads_rise<T: Lawful>()
    ensures reads { LaterReadsRise T.fits T.rises }
    ensures receipts { ReadsRiseFromReceipts T.fits T.rises }
{}
