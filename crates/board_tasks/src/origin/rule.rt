//! Rules of entries, and the first entry that breaks one.
ghost use Rattle.std.specs.Prelude.{◌≡◌, Bool, ℕ, IfNone, IfSome, length, map};
ghost use Rattle.board_tasks.specs.Origins.{AllKeep, in_order, IsFirstBrokenOrigin, IsFirstIn, KeptBefore};

use super::HasLog;
use crate::{Entry, Reply};
use history_core::Wish;
use matrix_core::Stamp;

/// A rule of entries, by their task and the stamp of the entry before.
pub(crate) trait Rule<V> {
    ghost use Rattle.board_tasks.specs.declared.lane.Entry.{Entry};
    ghost use Rattle.matrix_core.specs.declared.stamp.Stamp.{Stamp};

    // Whether it can be tested.
    ghost ready: { Self → Type 0 };

    ghost rule: { Self → ℕ → Stamp → Entry V → Bool };

    /// Whether the entry keeps it.
    fn keeps(&self, task: usize, before: Stamp, entry: &Entry<V>) -> bool
        requires { ready self.now }
        ensures { result ≡ rule self.now task before entry.now };
}

/// The reply is one to its wish, and its stamp fits its place.
#[derive(Drop)]
pub(crate) struct InOrder;

impl<V: Copy> Rule<V> for InOrder {
    ghost ready = { λ _. Unit {0} };

    ghost rule = { λ _ task before e. in_order task before e };

    fn keeps(&self, task: usize, before: Stamp, entry: &Entry<V>) -> bool {
        match (entry.wish, entry.reply) {
            (Wish::Write(_), Reply::Written(stamp)) => stamp.writer == task && before < stamp,
            (Wish::Write(_), Reply::Ended(posted)) | (Wish::Read, Reply::Seen(posted)) => {
                before <= posted.stamp
            }
            _ => false,
        }
    }
}

/// The first entry that breaks the rule, by task and then by call. Tasks count from 0 and calls from 1.
pub(crate) fn first_break<V: Copy, L: HasLog<V>, U: Rule<V>>(
    rule: &U,
    logs: &[L],
) -> Option<(usize, usize)>
    requires { U.ready rule.now }
    ensures none { IfNone result (AllKeep (U.rule rule.now) (map L.logged logs.now)) }
    ensures first { IfSome result (λ at. IsFirstBrokenOrigin (U.rule rule.now) (map L.logged logs.now) at.0 at.1) }
{
    for task in 0..logs.len() {
        if let Some(place) = first_in(rule, task, logs[task].entries()) {
            return Some((task, place + 1));
        }
    }
    None
}

/// The place of the first entry of a task's log that breaks it.
fn first_in<V: Copy, U: Rule<V>>(rule: &U, task: usize, log: &[Entry<V>]) -> Option<usize>
    requires { U.ready rule.now }
    ensures none { IfNone result (KeptBefore (U.rule rule.now) task log.now (length log.now)) }
    ensures first { IfSome result (λ k. IsFirstIn (U.rule rule.now) task log.now k) }
{
    let mut before = Stamp { tag: 0, writer: 0 };
    for place in 0..log.len() {
        let entry = log[place];
        if !rule.keeps(task, before, &entry) {
            return Some(place);
        }
        before = entry.reply.stamp();
    }
    None
}
