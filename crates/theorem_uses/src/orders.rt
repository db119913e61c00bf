//! What an atomic order says of the operations that it lists.
ghost use Rattle.std.specs.Prelude.{ℕ};
ghost use Rattle.theorem_uses.specs.Orders.{HasWhatIsThere, KeepsIntervals, ListsEachOnce};
ghost use Rattle.theorem_uses.specs.Orders.{ListsNothingElse, StaleIsAbsurd};
ghost use Rattle.theorem_uses.specs.Orders.{WaitsForTheLimit};
ghost use Rattle.theorem_uses.specs.Orders.{SawWhatIsThere, StandsOnceAtMost, VerdictsShow};

/// An operation that ended stands at one place of an atomic order, and at no other one. An order lists
/// nothing but operations, and of the unfinished ones writes alone. It keeps their intervals, and a read
/// has the record that is there.
pub fn atomic_orders_show<R>()
    ensures each { ListsEachOnce R }
    ensures nothing { ListsNothingElse R }
    ensures intervals { KeepsIntervals R }
    ensures reads { HasWhatIsThere R }
{}

/// Where the only write had ended before a read began, no order is atomic by which the read has another record.
pub fn stale_reads_are_absurd<R>()
    ensures { StaleIsAbsurd R }
{}

/// Where nothing is written no write is refused, unless the limit is 0.
pub fn refusals_wait<R>()
    ensures { WaitsForTheLimit R }
{}

/// An unfinished write stands once at most. A refused write saw the record that is there, and a write has one.
pub fn listed_writes_show<R>()
    ensures once { StandsOnceAtMost R }
    ensures saw { SawWhatIsThere R }
{}

/// Each verdict says which rules hold and which is broken.
pub fn verdicts_show<R>()
    ensures { VerdictsShow R }
{}
