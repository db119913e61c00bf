//! The events of a log.

ghost use Rattle.std.specs.Prelude.{◌↔◌, ◌≡◌, ◌<◌, ◌++◌, IfNone, IfOk, IfSome, IsSomeAnd, IsTrue, OnOk};
ghost use Rattle.object_sweep.specs.Rests.{RunForwards};
ghost use Rattle.object_sweep.specs.Verdicts.{RanBackwards};
ghost use Rattle.object_sweep.specs.inner.Events.{AreEvents, end_turn, event_of, events_at, moment_of, turns_of};

use object_core::Operation;
use std::alloc::{AllocError, Global};

/// An operation begins or ends. At one moment all begin before any ends.
#[derive(Clone, Copy, PartialEq, Eq, PartialOrd, Ord, Drop)]
pub(crate) struct Event {
    pub at: u64,
    pub ends: bool,
    pub place: usize,
}

/// An event without its moment, which the log tells. A long log has many.
#[derive(Clone, Copy)]
pub(crate) struct Turn {
    pub ends: bool,
    pub place: u32,
}

/// When an operation begins or ends.
fn moment_of<W>(log: &[Operation<W>], place: usize, ends: bool) -> u64
    ensures { result ≡ moment_of log.now place ends }
{
    match log.get(place) {
        Some(op) => if ends {
            op.ends.unwrap_or(0)
        } else {
            op.starts
        },
        None => 0,
    }
}

fn event_of<W>(log: &[Operation<W>], turn: Turn) -> Event
    ensures { result ≡ event_of log.now turn }
{
    let place = turn.place as usize;
    Event {
        at: moment_of(log, place, turn.ends),
        ends: turn.ends,
        place,
    }
}

fn push_end(turns: &mut Vec<Turn>, ends: Option<u64>, place: u32) -> Result<(), AllocError>
    ensures { OnOk result (turns.new.items ≡ turns.old.items ++ end_turn ends place) }
{
    if ends.is_none() {
        return Ok(());
    }
    turns.push(Turn { ends: true, place })?;
    Ok(())
}

/// The beginning of an operation, and its end.
fn push_turns<W>(turns: &mut Vec<Turn>, op: &Operation<W>, place: u32) -> Result<(), AllocError>
    ensures { OnOk result (turns.new.items ≡ turns.old.items ++ turns_of op.now place) }
{
    turns.push(Turn { ends: false, place })?;
    push_end(turns, op.ends, place)?;
    Ok(())
}

/// All events, in order. There is no memory for more operations than a `u32` counts: each has some fifty bytes.
pub(crate) fn turns_in<W>(alloc: Global, log: &[Operation<W>]) -> Result<Vec<Turn>, AllocError>
    ensures { IfOk result (λ v. AreEvents log.now (events_at log.now v.items)) }
{
    let mut turns = Vec::new(alloc);
    for place in 0..log.len() {
        let Ok(narrow) = u32::try_from(place) else {
            return Err(AllocError);
        };
        push_turns(&mut turns, &log[place], narrow)?;
    }
    turns.sort_unstable_by_key(|turn| event_of(log, *turn));
    Ok(turns)
}

/// The first operation that ended before it began.
pub(crate) fn first_backwards<W>(log: &[Operation<W>]) -> Option<usize>
    ensures some { IfSome result (RanBackwards log.now) }
    ensures none { IfNone result (RunForwards log.now) }
{
    for place in 0..log.len() {
        if is_backwards(&log[place]) {
            return Some(place);
        }
    }
    None
}

fn is_backwards<W>(op: &Operation<W>) -> bool
    ensures { IsTrue result ↔ IsSomeAnd op.now.ends (λ end. end < op.now.starts) }
{
    match op.ends {
        Some(end) => end < op.starts,
        None => false,
    }
}
