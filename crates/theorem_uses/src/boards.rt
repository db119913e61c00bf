//! What the calls of a board say, one by one and all together when it ends.
ghost use Rattle.theorem_uses.specs.Boards.{ComesOfOneSchedule, EndsWithTheGreatest};
ghost use Rattle.theorem_uses.specs.Boards.{EndsWithTheOnlyWrite, ReadsTheOnlyWrite};
ghost use Rattle.theorem_uses.specs.Boards.{RefusesNone, SeesTheGreater, SeesWhatWasTold};
ghost use Rattle.theorem_uses.specs.Boards.{ForgetsNoReceipt, ShowsItsOwn, StampsRiseByTime, TakesTime};
ghost use Rattle.theorem_uses.specs.Going.{HaveOneGreatest, OrdersShow, RegistersHaveEnded, RegistersShow};
ghost use Rattle.theorem_uses.specs.OnePass.{OnePassShows, StaleCallsAreAbsurd};
ghost use Rattle.theorem_uses.specs.Passes.{AllPassesShow, CallsShow, MadeShows, PassesShow};
ghost use Rattle.history_core.specs.declared.history.Kind.{Kind};

use board_live::{Board, Pass, Posted, RecordLaw};
use cell_contract::Family;

/// Of the calls of a board that has ended, whichever processes made them: a read that began after the only write had
/// ended has its record, which the register holds in the end; no write is refused before one was made; stamps rise
/// along intervals; and all come of one schedule of steps.
pub fn ended_boards_show<V: RecordLaw, F: Family<Posted<V>>>()
    ensures reads { ReadsTheOnlyWrite ⟦<F as Family<Posted<V>>>⟧ }
    ensures ends { EndsWithTheOnlyWrite ⟦<F as Family<Posted<V>>>⟧ }
    ensures refuses { RefusesNone ⟦<F as Family<Posted<V>>>⟧ }
    ensures rises { StampsRiseByTime ⟦<F as Family<Posted<V>>>⟧ }
    ensures greatest { EndsWithTheGreatest ⟦<F as Family<Posted<V>>>⟧ }
    ensures schedule { ComesOfOneSchedule ⟦<F as Family<Posted<V>>>⟧ }
{}

/// A call of a board that goes on saw the greatest record, none older than what its process was told, and
/// forgot no receipt; after it each other process is shown its process's own record; and it took its time after
/// all that its process knew of.
pub fn calls_show<V: RecordLaw, F: Family<Posted<V>>>(
    board: &Board<V, F>,
    old: &Pass<V, F>,
    new: &Pass<V, F>,
    seen: &Posted<V>,
)
    ensures sees { (kind : Kind) →
        SeesTheGreater ⟦<F as Family<Posted<V>>>⟧ V.obeys board.now kind old.now new.now seen.now }
    ensures heeds { (kind : Kind) →
        SeesWhatWasTold ⟦<F as Family<Posted<V>>>⟧ V.obeys board.now kind old.now new.now seen.now }
    ensures shows { (kind : Kind) →
        ShowsItsOwn ⟦<F as Family<Posted<V>>>⟧ V.obeys board.now kind old.now new.now seen.now }
    ensures receipts { (kind : Kind) →
        ForgetsNoReceipt ⟦<F as Family<Posted<V>>>⟧ V.obeys board.now kind old.now new.now seen.now }
    ensures later { (kind : Kind) →
        TakesTime ⟦<F as Family<Posted<V>>>⟧ V.obeys board.now kind old.now new.now seen.now }
{}

/// Of what a board shows while it goes on: passes have one greatest record, nobody is shown what wasn't told, and a
/// read after the only write has its record. One pass shows its own calls among all, and no stale answer, whoever is
/// stopped.
pub fn shown_boards_show<V: RecordLaw, F: Family<Posted<V>>>()
    ensures greatest { HaveOneGreatest ⟦<F as Family<Posted<V>>>⟧ }
    ensures registers { RegistersShow ⟦<F as Family<Posted<V>>>⟧ }
    ensures ended { RegistersHaveEnded ⟦<F as Family<Posted<V>>>⟧ }
    ensures orders { OrdersShow ⟦<F as Family<Posted<V>>>⟧ }
    ensures one { OnePassShows ⟦<F as Family<Posted<V>>>⟧ }
    ensures stale { StaleCallsAreAbsurd ⟦<F as Family<Posted<V>>>⟧ }
{}

/// What a pass is, what was made with it, and what a call adds to that.
pub fn passes_show<V: RecordLaw, F: Family<Posted<V>>>()
    ensures calls { CallsShow ⟦<F as Family<Posted<V>>>⟧ V.obeys }
    ensures made { MadeShows ⟦<F as Family<Posted<V>>>⟧ V.obeys }
    ensures passes { PassesShow ⟦<F as Family<Posted<V>>>⟧ V.obeys }
    ensures all { AllPassesShow ⟦<F as Family<Posted<V>>>⟧ V.obeys }
{}
