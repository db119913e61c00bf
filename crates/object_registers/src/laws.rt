//! What follows where a log of a register has a lawful order.

ghost use Rattle.std.specs.Prelude.{◌≡◌, ◌≢◌, ℕ, ◌≤◌, true, List, slice_get, Some};
ghost use Rattle.object_core.specs.declared.operation.Operation.{Operation};
ghost use Rattle.object_core.specs.Logs.{IsLawfulOrder, IsLinearizable, is_due, Precedes};
ghost use Rattle.object_registers.specs.Registers.{exchanging_after, found_by, IsWriteFor, limited_after, Makes};
ghost use Rattle.object_registers.specs.Registers.{limited_exchanging_after, unlimited};

use crate::{Access, Exchange, Exchanging, Limited, LimitedExchanging};

/// A refused write that is sure to have been made, while two writes were due: two writes of the log didn't begin after
/// its end.
pub fn refused_behind_writes()
    ensures { (opening : Limited) (log : List (Operation Access)) (p value : ℕ) (o : Operation Access) →
        IsLinearizable limited_after opening log → slice_get log p ≡ Some o → is_due o ≡ true →
        o.what ≡ Access.IsRefused value → 2 ≤ opening.due →
        (q r : ℕ) × (q ≢ r) × IsWriteFor o log q × IsWriteFor o log r }
{}

/// An operation is sure to have found another record than the opening: an operation that can leave that record didn't
/// begin after its end.
pub fn found_is_made()
    ensures { (opening : Exchanging) (log : List (Operation Exchange)) (p value : ℕ) (o : Operation Exchange) →
        IsLinearizable exchanging_after opening log → slice_get log p ≡ Some o → is_due o ≡ true →
        found_by o.what ≡ Some value → value ≢ opening.held →
        (q : ℕ) × (a : Operation Exchange) × (slice_get log q ≡ Some a) × (¬ Precedes o a) × Makes value a.what }
{}

/// An order that is lawful with a limit is lawful without it. Where no write is due, the same orders are lawful.
pub fn limit_only_forbids()
    ensures forbids { (opening : LimitedExchanging) (log : List (Operation Exchange)) (order : List ℕ) →
        IsLawfulOrder limited_exchanging_after opening log order →
        IsLawfulOrder exchanging_after (unlimited opening) log order }
    ensures none_due { (opening : LimitedExchanging) (log : List (Operation Exchange)) (order : List ℕ) →
        opening.due ≡ 0 → IsLawfulOrder exchanging_after (unlimited opening) log order →
        IsLawfulOrder limited_exchanging_after opening log order }
{}
