//! What a task adds to its log, and what logs in one order say.
ghost use Rattle.theorem_uses.specs.Noted.{LogOrdersShow, MadeEntriesShow, NothingTaken, PermitsShow};
ghost use Rattle.theorem_uses.specs.Noted.{RanShow, RunLogsShow, ScriptsShow};
ghost use Rattle.theorem_uses.specs.Noted.{TakesShow, WishesShow};

use board_live::{Posted, RecordLaw};
use cell_contract::Family;

/// A task that has run has made the calls of its log, each by a permit, and all of its script if it might not stop.
pub fn tasks_show<V: RecordLaw, F: Family<Posted<V>>>()
    ensures ran { RanShow ⟦<F as Family<Posted<V>>>⟧ V.obeys }
    ensures made { MadeEntriesShow ⟦<F as Family<Posted<V>>>⟧ V.obeys }
{}

/// A call that is permitted has its permit.
pub fn permits_show<S, P>()
    ensures { PermitsShow S P }
{}

/// Logs in order are those of one register, and a log of a script has its wishes.
pub fn log_orders_show<V>()
    ensures takes { TakesShow V }
    ensures nothing { NothingTaken V }
    ensures orders { LogOrdersShow V }
    ensures scripts { ScriptsShow V }
    ensures wishes { WishesShow V }
    ensures runs { RunLogsShow V }
{}
