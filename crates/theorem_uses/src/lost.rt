//! What is known of those that are left, where passes, lanes or logs were lost.
ghost use Rattle.theorem_uses.specs.Lost.{BrokenBesideShow, LogsWithSomeShow, RunsBesideShow, SoundBesideShow};
ghost use Rattle.theorem_uses.specs.Lost.{LogsOfAllShow, RunsBesideRise, WithoutLostShows, WritesRiseWithSome};
ghost use Rattle.theorem_uses.specs.Lost.{SomeLanesShow, SomePassesShow};
ghost use Rattle.theorem_uses.specs.Stale.{StaleBesideIsAbsurd, StaleEntriesAreAbsurd};

use board_live::{Posted, RecordLaw};
use cell_contract::Family;

/// Of passes or lanes that are left, whoever was lost: they are of the board, and no two lanes are of one process;
/// stamps rise along intervals, each entry tells of one call, a read that saw a stale record is absurd, and the logs of
/// all are theirs and empty ones.
pub fn some_passes_show<V: RecordLaw, F: Family<Posted<V>>>()
    ensures passes { SomePassesShow ⟦<F as Family<Posted<V>>>⟧ V.obeys }
    ensures lanes { SomeLanesShow ⟦<F as Family<Posted<V>>>⟧ V.obeys }
    ensures rises { WritesRiseWithSome ⟦<F as Family<Posted<V>>>⟧ }
    ensures logs { LogsWithSomeShow ⟦<F as Family<Posted<V>>>⟧ }
    ensures stale { StaleEntriesAreAbsurd ⟦<F as Family<Posted<V>>>⟧ }
    ensures all { LogsOfAllShow V F F.Seat F.Receipt }
{}

/// Of logs that are left: where they are sound beside what is lost, what was seen of a task whose log is there stands
/// in that log; else the first entry that breaks a rule is named. Those of a run tell of all calls of their processes,
/// which have ended, stamps rise along intervals, and a read that saw a stale record is absurd.
pub fn some_logs_show<V: Copy + Eq>()
    ensures sound { SoundBesideShow V.eq }
    ensures broken { BrokenBesideShow V.eq }
    ensures runs { RunsBesideShow V }
    ensures rise { RunsBesideRise V }
    ensures stale { StaleBesideIsAbsurd V }
    ensures rest { WithoutLostShows V }
{}
