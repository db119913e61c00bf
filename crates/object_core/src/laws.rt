//! Instances of the definitions, over a cell that holds 0 at first.

ghost use Rattle.std.specs.Prelude.{◌∷◌, []};
ghost use Rattle.object_core.specs.Instances.{cell_after, get_beside_put, stale_get, unfinished_put};
ghost use Rattle.object_core.specs.Logs.{IsLinearizable, IsLawfulOrder};

/// A get beside a put may have the put's number: the put stands first.
pub fn beside_is_lawful()
    ensures { IsLawfulOrder cell_after 0 get_beside_put (0 ∷ 1 ∷ []) }
{}

/// A get that began after a put of another number had ended can't have the number before it:
/// the log is not linearizable.
pub fn stale_is_unlawful()
    ensures { ¬ IsLinearizable cell_after 0 stale_get }
{}

/// A put that never ended may take effect late, between two gets.
pub fn unfinished_is_lawful()
    ensures { IsLawfulOrder cell_after 0 unfinished_put (1 ∷ 0 ∷ 2 ∷ []) }
{}
