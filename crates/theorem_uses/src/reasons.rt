//! What a reason and a fault of a search say of the operations that they name.
ghost use Rattle.theorem_uses.specs.Reasons.{AnsweredHistoriesShow, CrossedShows, EarlyShows, FaultsShow, LimitedShows};
ghost use Rattle.theorem_uses.specs.Reasons.{StaleShows, UnwrittenShows};

/// Each reason names operations that no atomic order can have.
pub fn reasons_show<R>()
    ensures unwritten { UnwrittenShows R }
    ensures early { EarlyShows R }
    ensures stale { StaleShows R }
    ensures crossed { CrossedShows R }
    ensures limited { LimitedShows R }
{}

/// A history that was searched is one that can be, and a fault names what stands in the way first.
pub fn faults_show<R>()
    ensures answered { AnsweredHistoriesShow R }
    ensures faults { FaultsShow R }
{}
