//! What a run of a board says of its processes' calls and of the registers between them.
ghost use Rattle.theorem_uses.specs.Planned.{WritesAfterItReads, WritesOneRecordARow};
ghost use Rattle.theorem_uses.specs.Runs.{RegisterShows, RunsShow, SilentCallShows, ToldCallShows};
ghost use Rattle.theorem_uses.specs.SoFar.{CallsStandSoFar, ReadsThoughOthersStop, RefusesNoneSoFar, RunsSoFarShow};
ghost use Rattle.theorem_uses.specs.SoFar.{StampsRiseSoFar, UnchosenStandsNowhere};

/// Of a process that made one call all times and records are told by those of the call.
pub fn single_calls_show<V>()
    ensures told { ToldCallShows V }
    ensures silent { SilentCallShows V }
{}

/// A register between two processes has its only write exactly after it, and a run has the steps of its processes.
pub fn runs_show<V>()
    ensures register { RegisterShows V }
    ensures run { RunsShow V }
{}

/// Of a run so far, whoever is cut off in it: a read that began after the only write had ended has its record, no
/// write is refused before one was made, and stamps rise along intervals. Each call is an operation; one that is cut
/// off stands in the order exactly if it is a write that has chosen.
pub fn runs_so_far_show<V>()
    ensures reads { ReadsThoughOthersStop V }
    ensures refuses { RefusesNoneSoFar V }
    ensures rises { StampsRiseSoFar V }
    ensures stand { CallsStandSoFar V }
    ensures nowhere { UnchosenStandsNowhere V }
    ensures parts { RunsSoFarShow V }
{}

/// Of a process that keeps to the plan of a board's records: it writes one record a row,
/// and nothing before it has read.
pub fn plans_show<V>()
    ensures row { WritesOneRecordARow V }
    ensures reads { WritesAfterItReads V }
{}
