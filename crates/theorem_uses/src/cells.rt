//! What the calls of a running cell say, one by one and all together when it ends.
ghost use Rattle.theorem_uses.specs.Cells.{AnswersAKnownWrite, AreCounted, AreInTheHistory, GoInTurn};
ghost use Rattle.theorem_uses.specs.Cells.{NeverGoesBack, ObeysTheLaw};
ghost use Rattle.theorem_uses.specs.Cells.{AnswersNothingStale, AnswersTheWriter};
ghost use Rattle.theorem_uses.specs.CellsSoFar.{StaleAnswersAreAbsurd};
ghost use Rattle.theorem_uses.specs.Cells.{ReadsNoOlder, ReadsTheOpening, ReadsTheWrite, TakesItsTime};

use cell_contract::Lawful;

/// Of calls that are atomic by their intervals: what a read of one write answers is told by the times alone. Calls go
/// in turn, each is counted, and each is an operation of the history.
pub fn atomic_calls_show<T>()
    ensures later { ReadsTheWrite T }
    ensures earlier { ReadsTheOpening T }
    ensures rising { ReadsNoOlder T }
    ensures turns { GoInTurn T }
    ensures counted { AreCounted T }
    ensures history { AreInTheHistory T }
{}

/// Answers that settle against the written records never go back.
pub fn settled_answers_show<T>()
    ensures { NeverGoesBack T }
{}

/// The next answer is one that was written, as far as its reader knows, obeys its law, and took its time.
pub fn next_answers_show<T: Lawful>()
    ensures known { AnswersAKnownWrite T }
    ensures lawful { ObeysTheLaw T.fits T.rises }
    ensures timed { TakesItsTime }
{}

/// An answer after a receipt was learnt was really written, and is no older than what the
/// receipt names. The cell goes on.
pub fn heeded_answers_show<T>()
    ensures written { AnswersTheWriter T }
    ensures fresh { AnswersNothingStale T }
{}

/// While the cell goes on, and whatever was written or is under way: an answer older than an earlier one, or than a
/// record of which a receipt told, is absurd.
pub fn stale_answers_are_absurd()
    ensures { StaleAnswersAreAbsurd }
{}
