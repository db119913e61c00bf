//! What is left of a log decides whether it has a lawful order, and from when on it is known whole.

ghost use Rattle.std.specs.Prelude.{◌≡◌, ◌↔◌, ◌⊎◌, ℕ, ◌<◌, ◌≤◌, true, List, map, slice_get, Some};
ghost use Rattle.object_core.specs.declared.operation.Operation.{Operation};
ghost use Rattle.object_core.specs.Logs.{IsLinearizable};
ghost use Rattle.object_sweep.specs.Rests.{RunForwards};
ghost use Rattle.object_watch.specs.Remainders.{known, removed};

use object_core::Object;

/// At the first end of a log: either that operation may have done nothing and is left out, or one that began by then is
/// placed. What is left is a log.
pub fn first_end_is_exact<O: Object>()
    ensures { (log : List (Operation O.What)) (end p : ℕ) (o : Operation O.What) (s : O) → RunForwards log →
        ((r at : ℕ) (a : Operation O.What) → slice_get log r ≡ Some a → a.ends ≡ Some at → end ≤ at) →
        slice_get log p ≡ Some o → o.ends ≡ Some end →
        (IsLinearizable O.after s log ↔ (((o.maybe ≡ true) × IsLinearizable O.after s (removed p log)) ⊎
        ((q : ℕ) × (a : Operation O.What) × (t : O) × (slice_get log q ≡ Some a) × (a.starts ≤ end)
        × (O.after s a.what ≡ Some t) × IsLinearizable O.after t (removed q log)))) }
{}

/// From its last end on a log is known as it is.
pub fn last_end_shows_all<O: Object>()
    ensures { (log : List (Operation O.What)) (m : ℕ) →
        ((i at : ℕ) (o : Operation O.What) → slice_get log i ≡ Some o → o.ends ≡ Some at → at ≤ m) →
        map (known m) log ≡ log }
{}
