//! Records that may have been written in a log that is lost.
ghost use Rattle.std.specs.Prelude.{◌≡◌, map};
ghost use Rattle.board_tasks.specs.Lost.{is_lost, may_be_known, may_have_origin};
ghost use Rattle.board_tasks.specs.Origins.{AllKeep, in_order};

use super::HasLog;
use super::known::is_known;
use super::rule::Rule;
use crate::{Entry, Reply};
use board_live::Posted;
use matrix_core::Stamp;

/// What an entry saw is of a task whose log is lost, or has an origin.
#[derive(Drop)]
pub(crate) struct MayHaveOrigin<'a, V, L> {
    pub(crate) opening: V,
    pub(crate) logs: &'a [L],
    pub(crate) lost: &'a [bool],
}

impl<'a, V: Copy + Eq, L: HasLog<V>> Rule<V> for MayHaveOrigin<'a, V, L> {
    ghost ready = { λ s. AllKeep in_order (map L.logged s.logs.now) };

    ghost rule = { λ s task before e. may_have_origin V.eq s.opening s.lost.now
        (map L.logged s.logs.now) task before e };

    fn keeps(&self, _task: usize, _before: Stamp, entry: &Entry<V>) -> bool {
        match entry.reply {
            Reply::Written(_) => true,
            Reply::Seen(posted) | Reply::Ended(posted) => {
                may_be_known(self.opening, self.logs, self.lost, &posted)
            }
        }
    }
}

/// Whether a record is of a task whose log is lost, or is the opening at stamp 0.0, or was written in
/// the log that its stamp names.
fn may_be_known<V: Copy + Eq, L: HasLog<V>>(
    opening: V,
    logs: &[L],
    lost: &[bool],
    posted: &Posted<V>,
) -> bool
    requires { AllKeep in_order (map L.logged logs.now) }
    ensures { result ≡ may_be_known V.eq opening lost.now (map L.logged logs.now) posted.now }
{
    is_lost(lost, posted.stamp.writer) || is_known(opening, logs, posted)
}

fn is_lost(lost: &[bool], task: usize) -> bool
    ensures { result ≡ is_lost lost.now task }
{
    match lost.get(task) {
        Some(it) => *it,
        None => false,
    }
}
