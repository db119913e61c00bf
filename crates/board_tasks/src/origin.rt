//! The check of logs: whether every record that a call saw has its origin.
ghost use Rattle.std.specs.Prelude.{◌≡◌, ℕ, List, map};
ghost use Rattle.board_tasks.specs.LogOrders.{LogsInOrder};
ghost use Rattle.board_tasks.specs.Lost.{AreWithoutLost, IsOriginBesideLost};
ghost use Rattle.board_tasks.specs.declared.origin.Origin.TheVariants.{Sound};
ghost use Rattle.board_tasks.specs.Origins.{AllKeep, in_order, IsOrigin};
ghost use Rattle.board_tasks.specs.Told.{AreOfRun, AreOfRunBeside};

use crate::{Entry, Lane};
use board_live::{Posted, RecordLaw};
use cell_contract::Family;

mod known;
mod lost;
mod rule;

use known::HasOrigin;
use lost::MayHaveOrigin;
use rule::{InOrder, first_break};

/// What has a log: a lane, or a list of entries that a program kept itself.
pub trait HasLog<V> {
    ghost use Rattle.board_tasks.specs.declared.lane.Entry.{Entry};

    // The entries of the log.
    ghost logged: { Self → List (Entry V) };

    /// The entries of the log.
    fn entries(&self) -> &[Entry<V>]
        ensures { result.now ≡ logged self.now };
}

impl<V: RecordLaw, F: Family<Posted<V>>> HasLog<V> for Lane<V, F> {
    ghost logged = { λ l. l.log.items };

    fn entries(&self) -> &[Entry<V>] {
        self.log()
    }
}

impl<V> HasLog<V> for Vec<Entry<V>> {
    ghost logged = { λ v. v.items };

    fn entries(&self) -> &[Entry<V>] {
        self.as_slice()
    }
}

/// Whether every record in the logs has its origin there.
#[derive(Clone, Copy, Debug, PartialEq, Eq)]
pub enum Origin {
    Sound,
    /// The first entry that breaks a rule, by task and then by call. Tasks count from 0 and calls from 1.
    Broken { task: usize, call: usize },
}

/// Looks at each entry of the logs, of which the one at place k is that of process k. First, whether all are in order:
/// each reply is one to its wish, a write's stamp names its task and is above the stamp of the entry before, and no
/// other stamp is below that. Then, whether each record that was seen is the opening at stamp 0.0 or was written by an
/// entry of the log that its stamp names; such a log is searched by halves. The logs of a board's run are sound, and so
/// are logs that have one order.
pub fn check_origin<V: Copy + Eq, L: HasLog<V>>(opening: V, logs: &[L]) -> Origin
    ensures origin { IsOrigin V.eq opening (map L.logged logs.now) result }
    ensures run { AreOfRun opening (map L.logged logs.now) → result ≡ Sound }
    ensures ordered { (limit : ℕ) (last : _) → LogsInOrder opening limit (map L.logged logs.now) last → result ≡ Sound }
{
    if let Some((task, call)) = first_break(&InOrder, logs) {
        return Origin::Broken { task, call };
    }
    if let Some((task, call)) = first_break(&HasOrigin { opening, logs }, logs) {
        return Origin::Broken { task, call };
    }
    Origin::Sound
}

/// The same of logs of which some were lost, as those of tasks that never came back: such a log may be empty, and a
/// record whose stamp names its task may have its origin there. Whether two records have one stamp of a lost task isn't
/// looked at. Logs that are sound are sound without those that are lost, and so are those of a board's run in which the
/// lost tasks were cut off.
pub fn check_origin_beside<V: Copy + Eq, L: HasLog<V>>(
    opening: V,
    logs: &[L],
    lost: &[bool],
) -> Origin
    ensures origin { IsOriginBesideLost V.eq opening lost.now (map L.logged logs.now) result }
    ensures rest { (whole : _) → IsOrigin V.eq opening whole Sound →
        AreWithoutLost lost.now whole (map L.logged logs.now) → result ≡ Sound }
    ensures run { AreOfRunBeside opening lost.now (map L.logged logs.now) → result ≡ Sound }
{
    if let Some((task, call)) = first_break(&InOrder, logs) {
        return Origin::Broken { task, call };
    }
    if let Some((task, call)) = first_break(
        &MayHaveOrigin {
            opening,
            logs,
            lost,
        },
        logs,
    ) {
        return Origin::Broken { task, call };
    }
    Origin::Sound
}
