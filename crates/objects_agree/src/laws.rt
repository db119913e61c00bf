//! What one definition calls lawful is what the other does, of an order and of a whole log.

ghost use Rattle.std.specs.Prelude.{◌≡◌, ◌↔◌, ℕ, List, [], ◌∷◌};
ghost use Rattle.history_core.specs.declared.history.Op.{Op};
ghost use Rattle.history_core.specs.declared.history.Verdict.TheVariants.{Lawful};
ghost use Rattle.history_core.specs.Orders.{IsVerdict};
ghost use Rattle.object_core.specs.Logs.{IsLawfulOrder, IsLinearizable};
ghost use Rattle.object_registers.specs.Registers.{exchanging_after, limited_after};
ghost use Rattle.objects_agree.specs.Agreement.{accesses, exchanges, HaveRecords, NoneIsRefused, those_that_stand};
ghost use Rattle.objects_agree.specs.Instances.{refused_behind};

/// A history has a lawful order under a limit exactly if each operation that ended has a record, and its log is
/// linearizable, where it is of a register that may refuse a write once it took so many.
pub fn definitions_agree()
    ensures { (opening limit : ℕ) (ops : List (Op ℕ)) →
        (((order : List ℕ)
        × IsVerdict (λ x y. x ≡ y) opening (record { first = 0; limit = limit } ∷ []) ops order Lawful)
        ↔ (HaveRecords ops
        × IsLinearizable limited_after (record { held = opening; due = limit }) (accesses opening ops))) }
{}

/// An order that is lawful for the history is lawful for the log as it is. One that is lawful for the log is lawful for
/// the history without what can't stand there: unfinished reads and refused writes, which change nothing.
pub fn orders_agree()
    ensures there { (opening limit : ℕ) (ops : List (Op ℕ)) (order : List ℕ) →
        IsVerdict (λ x y. x ≡ y) opening (record { first = 0; limit = limit } ∷ []) ops order Lawful →
        IsLawfulOrder limited_after (record { held = opening; due = limit }) (accesses opening ops) order }
    ensures back { (opening limit : ℕ) (ops : List (Op ℕ)) (order : List ℕ) → HaveRecords ops →
        IsLawfulOrder limited_after (record { held = opening; due = limit }) (accesses opening ops) order →
        IsVerdict (λ x y. x ≡ y) opening (record { first = 0; limit = limit } ∷ []) ops (those_that_stand ops order)
        Lawful }
{}

/// Where no write is refused, the same holds of a register with compare-and-set, and the limit says nothing.
pub fn exchanges_agree()
    ensures { (opening limit : ℕ) (ops : List (Op ℕ)) → NoneIsRefused ops →
        (((order : List ℕ)
        × IsVerdict (λ x y. x ≡ y) opening (record { first = 0; limit = limit } ∷ []) ops order Lawful)
        ↔ (HaveRecords ops
        × IsLinearizable exchanging_after (record { held = opening }) (exchanges opening ops))) }
{}

/// An instance: a write, a refused write that saw its record, and a read that never ended. Under a limit of one write
/// an order with the read is lawful for the log, and one without it for the history; under a limit of two none is.
pub fn refused_behind_one()
    ensures log { IsLawfulOrder limited_after (record { held = 0; due = 1 }) (accesses 0 refused_behind)
        (2 ∷ 0 ∷ 1 ∷ []) }
    ensures history { IsVerdict (λ x y. x ≡ y) 0 (record { first = 0; limit = 1 } ∷ []) refused_behind (0 ∷ 1 ∷ [])
        Lawful }
    ensures none { (order : List ℕ) →
        ¬ IsVerdict (λ x y. x ≡ y) 0 (record { first = 0; limit = 2 } ∷ []) refused_behind order Lawful }
{}
