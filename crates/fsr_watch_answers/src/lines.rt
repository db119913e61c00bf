//! The lines of what has come.
ghost use Rattle.std.specs.Prelude.{◌<◌, Option, length};
ghost use Rattle.fsr_watch_answers.specs.inner.Comings.{HasWatched, IsLastTold, IsLongTold};
ghost use Rattle.watch_lines.specs.Seen.{LinesSeen};
ghost use Rattle.watch_lines.specs.Watchers.{KnowsIf};

use crate::split::split_whole;
use program_runs::Fault;
use std::alloc::{AllocError, Global};
use watch_lines::{Step, Told, WatchFault, Watcher, watch_end, watch_line};

/// What came of what has come.
#[derive(Drop)]
pub(crate) enum Coming {
    GoesOn(Option<Watcher>),
    Stops(Result<Told, WatchFault>),
}

/// Watches the whole lines of what has come behind those that were read, if any were, and leaves what stands behind
/// them.
pub(crate) fn watch_whole(
    alloc: Global,
    budget: usize,
    read: Option<Watcher>,
    bytes: &mut Vec<u8>,
) -> Coming
    requires { (seen : Option LinesSeen) × KnowsIf seen read }
    ensures { (seen : Option LinesSeen) → KnowsIf seen read → HasWatched seen bytes.old.items bytes.new.items result }
{
    let mut read = read;
    let mut rest = bytes.as_slice();
    'lines: while let Some((line, behind)) = split_whole(rest) {
        read = match watch_line(alloc, budget, read, line) {
            Step::GoesOn(watcher) => Some(watcher),
            Step::Stops(reply) => return Coming::Stops(reply),
        };
        rest = behind;
    }
    match Vec::from_slice(alloc, rest) {
        Ok(left) => {
            *bytes = left;
            Coming::GoesOn(read)
        }
        Err(AllocError) => Coming::Stops(Err(WatchFault::Refused(Fault::NoMemory))),
    }
}

/// What is told where nothing more comes behind the last line, which no line feed ends.
pub(crate) fn watch_last(
    alloc: Global,
    budget: usize,
    read: Option<Watcher>,
    bytes: &[u8],
) -> Result<Told, WatchFault>
    requires { (seen : Option LinesSeen) × KnowsIf seen read }
    ensures { (seen : Option LinesSeen) → KnowsIf seen read → IsLastTold seen bytes.now result }
{
    if bytes.is_empty() {
        return watch_end(alloc, budget, read);
    }
    match watch_line(alloc, budget, read, bytes) {
        Step::GoesOn(watcher) => watch_end(alloc, budget, Some(watcher)),
        Step::Stops(reply) => reply,
    }
}

/// What is told of a line that is longer than the longest, whatever comes behind it.
pub(crate) fn watch_long(
    alloc: Global,
    budget: usize,
    read: Option<Watcher>,
    bytes: &[u8],
) -> Result<Told, WatchFault>
    requires known { (seen : Option LinesSeen) × KnowsIf seen read }
    requires long { 1048576 < length bytes.now }
    ensures { (seen : Option LinesSeen) → KnowsIf seen read → IsLongTold seen bytes.now result }
{
    match watch_line(alloc, budget, read, bytes) {
        Step::GoesOn(_) => unreachable!(),
        Step::Stops(reply) => reply,
    }
}
