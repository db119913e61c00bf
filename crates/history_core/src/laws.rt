//! Laws over the definitions.

ghost use Rattle.std.specs.Prelude.{◌≡◌, ℕ, List, ◌∷◌, ◌++◌, IsTrue, length, slice_get, Some, []};
ghost use Rattle.history_core.specs.declared.history.Kind.TheVariants.{Write};
ghost use Rattle.history_core.specs.declared.history.Op.{Op};
ghost use Rattle.history_core.specs.declared.history.Term.{Term};
ghost use Rattle.history_core.specs.declared.history.Verdict.{Verdict};
ghost use Rattle.history_core.specs.declared.history.Verdict.TheVariants.{Lawful};
ghost use Rattle.history_core.specs.Joined.{HasFirstTerm, IsInTurn, ops_of, order_after, order_from, Part, StaysBehind};
ghost use Rattle.history_core.specs.Joined.{terms_after, terms_from};
ghost use Rattle.history_core.specs.Numbers.{IsByNumber};
ghost use Rattle.history_core.specs.Orders.{HasNoWrites, IsAtomicOrder, IsVerdict, KeepsPrecedence, latest};
ghost use Rattle.history_core.specs.Orders.{ListsPlaces, RefusesLawfully};
ghost use Rattle.history_core.specs.Registers.{Intervals, IsAlone, IsRegular, one_long_write, two_short_reads};

/// An order by number keeps precedence.
pub fn order_by_number<R>()
    ensures { (number : ℕ → ℕ) (ops : List (Op R)) (order : List ℕ) → IsByNumber number ops order →
        KeepsPrecedence ops order }
{}

/// The latest record is the item of the last write that an order lists, or the opening where it lists none.
pub fn latest_is_last_write<R>()
    ensures opening { (opening : R) (ops : List (Op R)) (order : List ℕ) → HasNoWrites ops order →
        latest opening ops order ≡ Some opening }
    ensures last { (opening : R) (ops : List (Op R)) (before after : List ℕ) (p : ℕ) (o : Op R) →
        slice_get ops p ≡ Some o → o.kind ≡ Write → HasNoWrites ops after →
        latest opening ops (before ++ p ∷ after) ≡ o.item }
{}

/// Every verdict on an order is `Lawful` where the order is atomic by equality of values and refuses lawfully.
pub fn atomic_is_lawful<R: Eq>()
    ensures { (opening : R) (terms : List Term) (ops : List (Op R)) (order : List ℕ) (verdict : Verdict) →
        IsAtomicOrder (λ x y. x ≡ y) opening ops order → RefusesLawfully terms ops order →
        IsVerdict (λ x y. IsTrue (R.eq x y)) opening terms ops order verdict → verdict ≡ Lawful }
{}

/// Orders of two parts of a history, one after the other, are one order of the whole. It is atomic where each is, the
/// later part opens with the latest record of the first, and none of its operations precedes one of the first. It
/// refuses lawfully where each does, and its latest record is that of the later part.
pub fn orders_join<R>()
    ensures atomic { (opening next : R) (ops later_ops : List (Op R)) (order later_order : List ℕ) →
        IsAtomicOrder (λ x y. x ≡ y) opening ops order → IsAtomicOrder (λ x y. x ≡ y) next later_ops later_order →
        latest opening ops order ≡ Some next → StaysBehind later_ops ops →
        IsAtomicOrder (λ x y. x ≡ y) opening (ops ++ later_ops) (order ++ order_after (length ops) later_order) }
    ensures lawful { (terms later_terms : List Term) (ops later_ops : List (Op R)) (order later_order : List ℕ) →
        ListsPlaces ops order → ListsPlaces later_ops later_order → RefusesLawfully terms ops order →
        RefusesLawfully later_terms later_ops later_order → HasFirstTerm later_terms later_ops →
        RefusesLawfully (terms ++ terms_after (length ops) later_terms) (ops ++ later_ops)
        (order ++ order_after (length ops) later_order) }
    ensures last { (opening next : R) (ops later_ops : List (Op R)) (order later_order : List ℕ) →
        ListsPlaces ops order → latest opening ops order ≡ Some next →
        latest opening (ops ++ later_ops) (order ++ order_after (length ops) later_order)
        ≡ latest next later_ops later_order }
{}

/// Orders of any number of parts, each of one term, that stand in turn are one order of the whole,
/// atomic and with lawful refusals.
pub fn parts_join<R>()
    ensures atomic { (opening last : R) (parts : List (Part R)) → IsInTurn (λ x y. x ≡ y) opening parts last →
        IsAtomicOrder (λ x y. x ≡ y) opening (ops_of parts) (order_from 0 parts) }
    ensures lawful { (opening last : R) (parts : List (Part R)) → IsInTurn (λ x y. x ≡ y) opening parts last →
        RefusesLawfully (terms_from 0 parts) (ops_of parts) (order_from 0 parts) }
    ensures last { (opening last : R) (parts : List (Part R)) → IsInTurn (λ x y. x ≡ y) opening parts last →
        latest opening (ops_of parts) (order_from 0 parts) ≡ Some last }
{}

/// A regular register is safe: a read that meets no write answers the last record written before it.
pub fn regular_is_safe<R>()
    ensures { (opening : R) (written : List R) (writes : Intervals) (answers : List R) (numbers : List ℕ)
        (reads : Intervals) (m last : ℕ) (answer : R) → IsRegular opening written writes answers numbers reads →
        IsAlone writes reads m last → slice_get answers m ≡ Some answer →
        slice_get (opening ∷ written) last ≡ Some answer }
{}

/// A regular register may answer out of order: of two reads beside one write of 8 over 7 the first may have 8, and the
/// second 7. So a register whose calls are atomic promises more.
pub fn regular_may_fall()
    ensures { IsRegular {T = ℕ} 7 (8 ∷ []) one_long_write (8 ∷ 7 ∷ []) (1 ∷ 0 ∷ []) two_short_reads }
{}
