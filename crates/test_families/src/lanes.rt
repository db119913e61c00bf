//! Lanes that run, and the passes that they give back.
ghost use Rattle.std.specs.Prelude.{◌≡◌};

use board_live::{Pass, Posted, RecordLaw};
use board_tasks::{Entry, Gate, Lane, OpenGate, Reply, into_passes};
use board_teams::{point, run_plans};
use cell_contract::{Family, SharedFamily};
use history_core::Band;
use matrix_core::Stamp;
use std::alloc::{AllocError, Global};
use std::thread::Threads;

/// What an entry says in numbers: its kind, its stamp, and the reading of the record seen.
fn said(entry: &Entry<Band>) -> (char, u64, usize, u64) {
    match entry.reply {
        Reply::Written(stamp) => ('w', stamp.tag, stamp.writer, 0),
        Reply::Seen(posted) => ('r', posted.stamp.tag, posted.stamp.writer, posted.item.now),
        Reply::Ended(posted) => ('e', posted.stamp.tag, posted.stamp.writer, posted.item.now),
    }
}

/// What the entry at this place of a log says, or 'none'.
fn said_at(log: &[Entry<Band>], place: usize) -> (char, u64, usize, u64) {
    match log.get(place) {
        Some(entry) => said(entry),
        None => ('n', 0, 0, 0),
    }
}

/// Whether it is the log of the task that writes.
fn is_writer(log: &[Entry<Band>]) -> bool {
    log.len() == 3
        && said_at(log, 0) == ('w', 1, 0, 0)
        && said_at(log, 1) == ('e', 1, 0, 1)
        && said_at(log, 2) == ('r', 1, 0, 1)
}

/// Whether it is the log of the task that reads, before the write or after it.
fn is_reader(log: &[Entry<Band>]) -> bool {
    let seen = said_at(log, 0);
    log.len() == 1 && (seen == ('r', 0, 0, 0) || seen == ('r', 1, 0, 1))
}

fn are_at_limit<F: Family<Posted<Band>>>(lanes: &[Lane<Band, F>]) -> bool {
    match lanes {
        [writer, reader] => is_writer(writer.log()) && is_reader(reader.log()),
        _ => false,
    }
}

const TO_LIMIT: &[&[u64]] = &[&[1, 2, 0], &[0]];

/// One task writes up to the limit and beyond, the other reads.
pub fn write_to_limit<R: Threads + Sync, F: SharedFamily<Posted<Band>>>(
    rt: &R,
    alloc: Global,
) -> Result<bool, AllocError>
where
    F::Seat: Send,
    F::Receipt: Send,
{
    let crew = run_plans::<R, F, OpenGate>(rt, alloc, 1, TO_LIMIT, &OpenGate)?;
    Ok(are_at_limit(crew.lanes.as_slice()))
}

/// Stops task 1 before its second call.
#[derive(Drop)]
struct StopsSecond;

impl Gate for StopsSecond {
    type Permit = ();

    ghost is_for = { λ _ _ _ _. Unit {0} };

    ghost may_stop = { λ _ task call. (task ≡ 1) × (call ≡ 2) };

    fn before(&self, task: usize, call: usize) -> Option<()> {
        if task == 1 && call == 2 {
            None
        } else {
            Some(())
        }
    }

    fn after<V: RecordLaw, F: Family<Posted<V>>>(
        &self,
        _task: usize,
        _call: usize,
        _entry: &Entry<V>,
        _permit: (),
    ) {}
}

const STOPPED: &[&[u64]] = &[&[], &[1, 2]];

fn is_at(posted: Posted<Band>, tag: u64, writer: usize, number: u64) -> bool {
    posted.stamp == Stamp { tag, writer } && posted.item == point(number)
}

/// Whether the first pass knows the opening alone, and the second what it wrote.
fn know<F: Family<Posted<Band>>>(passes: &[Pass<Band, F>]) -> bool {
    match passes {
        [first, second] => is_at(first.own(), 0, 0, 0) && is_at(second.own(), 1, 1, 1),
        _ => false,
    }
}

/// The passes of lanes that ran know what they wrote, also where a gate has stopped a task.
pub fn passes_know<R: Threads + Sync, F: SharedFamily<Posted<Band>>>(
    rt: &R,
    alloc: Global,
) -> Result<bool, AllocError>
where
    F::Seat: Send,
    F::Receipt: Send,
{
    let crew = run_plans::<R, F, StopsSecond>(rt, alloc, 9, STOPPED, &StopsSecond)?;
    let passes = into_passes(alloc, crew.lanes)?;
    Ok(know(passes.as_slice()))
}
