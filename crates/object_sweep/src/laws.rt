//! What may be placed at the ends of a log's operations, one after the other, decides whether it has a lawful order.

ghost use Rattle.std.specs.Prelude.{◌≡◌, ◌↔◌, ◌⊎◌, ℕ, ◌<◌, Bool, true, false, ◌||◌, nat_eq, List, ◌∷◌, slice_get};
ghost use Rattle.std.specs.Prelude.{None, Some};
ghost use Rattle.object_core.specs.declared.operation.Operation.{Operation};
ghost use Rattle.object_core.specs.Logs.{IsLinearizable};
ghost use Rattle.object_sweep.specs.Cuts.{cut_log};
ghost use Rattle.object_sweep.specs.Reached.{AreTooMany, is_closed, is_in, is_within, IsLostAt, IsReachable};
ghost use Rattle.object_sweep.specs.Rests.{CanFinish, CanPlace, NoOpenEndBefore, RunForwards};

use object_core::Object;

/// Before all operations what follows is a lawful order.
pub fn opening_is_exact<O: Object>()
    ensures { (opening : O) (log : List (Operation O.What)) →
        CanFinish O.after log (λ q. false) opening ↔ IsLinearizable O.after opening log }
{}

/// At the first end of those that can still be placed: either that operation may have done nothing and is left out, or
/// one that began by then is placed.
pub fn one_end_is_exact<O: Object>()
    ensures { (log : List (Operation O.What)) (closed : ℕ → Bool) (end p : ℕ) (o : Operation O.What) (s : O) →
        RunForwards log → NoOpenEndBefore log closed end →
        slice_get log p ≡ Some o → o.ends ≡ Some end → closed p ≡ false →
        (CanFinish O.after log closed s ↔ (((o.maybe ≡ true) × CanFinish O.after log (λ r. closed r || nat_eq r p) s) ⊎
        ((q : ℕ) × (t : O) × CanPlace O.after log closed end s q t ×
        CanFinish O.after log (λ r. closed r || nat_eq r q) t))) }
{}

/// Behind the last end nothing has to follow.
pub fn last_end_is_exact<O: Object>()
    ensures { (log : List (Operation O.What)) (closed : ℕ → Bool) (s : O) →
        ((p : ℕ) (o : Operation O.What) → slice_get log p ≡ Some o → closed p ≡ false → o.ends ≡ None) →
        CanFinish O.after log closed s }
{}

/// What is reached begins a lawful order: if the rest of one can follow a configuration that is reached, the log has a
/// lawful order.
pub fn reached_is_sound<O: Object>()
    ensures { (opening : O) (log : List (Operation O.What)) (ended placed : List ℕ) (s : O) →
        IsReachable O.after opening log ended s placed → CanFinish O.after log (is_closed ended placed) s →
        IsLinearizable O.after opening log }
{}

/// Where a log is lost, the log so far has no lawful order: that in which this operation has its end, and those that
/// ended before it, and no other one.
pub fn lost_is_unlawful<O: Object>()
    ensures { (opening : O) (log : List (Operation O.What)) (place : ℕ) → RunForwards log →
        (lost : IsLostAt O.after opening log place) →
        ¬ IsLinearizable O.after opening (cut_log (λ q. is_in q (place ∷ lost.ended)) log) }
{}

/// Where more than one configuration is too many, the operation has an end, and two configurations are reached behind
/// the same ends that differ in the state or in what they have placed.
pub fn too_many_differ<O: Object>()
    ensures { (opening : O) (log : List (Operation O.What)) (budget place : ℕ) → 0 < budget →
        AreTooMany O.after opening log budget place →
        (o : Operation O.What) × (end : ℕ) × (slice_get log place ≡ Some o) × (o.ends ≡ Some end)
        × (ended placed others : List ℕ) × (s t : O) × IsReachable O.after opening log ended s placed
        × IsReachable O.after opening log ended t others
        × ((s ≡ t) → is_within placed others ≡ true → is_within others placed ≡ true → ⊥) }
{}
