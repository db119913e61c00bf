//! Records that were written in logs whose entries are in order.
ghost use Rattle.std.specs.Prelude.{◌≡◌, ◌≤◌, length, map, slice_get, Some};
ghost use Rattle.board_tasks.specs.Origins.{AllKeep, has_origin, has_write, in_order, is_known};
ghost use Rattle.board_tasks.specs.Origins.{KeptBefore, sees_known, wrote};
ghost use Rattle.board_tasks.specs.Logs.{stamp_of};
ghost use Rattle.board_tasks.specs.inner.Found.{IsFirstFrom};
ghost use Rattle.matrix_core.specs.Stamps.{is_below};

use super::HasLog;
use super::rule::Rule;
use crate::{Entry, Reply};
use board_live::Posted;
use history_core::Wish;
use matrix_core::Stamp;

/// What an entry saw is the opening at stamp 0.0, or was written in the log that its stamp names.
#[derive(Drop)]
pub(crate) struct HasOrigin<'a, V, L> {
    pub(crate) opening: V,
    pub(crate) logs: &'a [L],
}

impl<'a, V: Copy + Eq, L: HasLog<V>> Rule<V> for HasOrigin<'a, V, L> {
    ghost ready = { λ s. AllKeep in_order (map L.logged s.logs.now) };

    ghost rule = { λ s task before e. has_origin V.eq s.opening (map L.logged s.logs.now) task before e };

    fn keeps(&self, _task: usize, _before: Stamp, entry: &Entry<V>) -> bool {
        match entry.reply {
            Reply::Written(_) => true,
            Reply::Seen(posted) | Reply::Ended(posted) => {
                is_known(self.opening, self.logs, &posted)
            }
        }
    }
}

/// Whether a record is the opening at stamp 0.0, or was written in the log that its stamp names.
pub(crate) fn is_known<V: Copy + Eq, L: HasLog<V>>(
    opening: V,
    logs: &[L],
    posted: &Posted<V>,
) -> bool
    requires { AllKeep in_order (map L.logged logs.now) }
    ensures { result ≡ is_known V.eq opening (map L.logged logs.now) posted.now }
{
    let first = Stamp { tag: 0, writer: 0 };
    if posted.stamp == first && posted.item == opening {
        return true;
    }
    let task = posted.stamp.writer;
    match logs.get(task) {
        Some(log) => has_write(task, log.entries(), posted),
        None => false,
    }
}

/// Whether the log of a task, whose entries are in order, has a write of the record.
fn has_write<V: Copy + Eq>(task: usize, log: &[Entry<V>], posted: &Posted<V>) -> bool
    requires { KeptBefore in_order task log.now (length log.now) }
    ensures { result ≡ has_write V.eq posted.now (Some log.now) }
{
    match log.get(first_from(task, log, posted.stamp)) {
        Some(entry) => wrote(entry, posted),
        None => false,
    }
}

/// The place of the first entry whose stamp isn't below this one.
fn first_from<V: Copy>(task: usize, log: &[Entry<V>], stamp: Stamp) -> usize
    requires { KeptBefore in_order task log.now (length log.now) }
    ensures { IsFirstFrom log.now stamp result }
{
    let mut low = 0;
    let mut high = log.len();
    while low < high {
        let middle = low + (high - low) / 2;
        if is_below(&log[middle], stamp) {
            low = middle + 1;
        } else {
            high = middle;
        }
    }
    low
}

fn is_below<V: Copy>(entry: &Entry<V>, stamp: Stamp) -> bool
    ensures { result ≡ is_below (stamp_of entry.now.reply) stamp }
{
    entry.reply.stamp() < stamp
}

fn wrote<V: Copy + Eq>(entry: &Entry<V>, posted: &Posted<V>) -> bool
    ensures { result ≡ wrote V.eq posted.now entry.now.wish entry.now.reply }
{
    match (entry.wish, entry.reply) {
        (Wish::Write(item), Reply::Written(stamp)) => {
            stamp == posted.stamp && item == posted.item
        }
        _ => false,
    }
}
