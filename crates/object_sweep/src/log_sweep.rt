//! The sweep over a log.

ghost use Rattle.std.specs.Prelude.{IfOk, MatchResult};
ghost use Rattle.object_sweep.specs.Rests.{RunForwards};
ghost use Rattle.object_sweep.specs.Verdicts.{IsSweepFault, IsSweepVerdict};
ghost use Rattle.object_sweep.specs.inner.Ends.{IsEndPassed, IsEventPassed};
ghost use Rattle.object_sweep.specs.inner.Events.{AreEvents, events_at};

use crate::beam::{Narrow, sweep_narrowly};
use crate::ending::pass;
use crate::event::{Turn, first_backwards, turns_in};
use crate::front::{Front, Mark};
use crate::places::{is_in, remove};
use object_core::{Object, Operation};
use std::alloc::{AllocError, Global};

/// What is known of a log.
#[derive(Clone, Copy, Debug, PartialEq, Eq, Drop)]
pub enum Verdict {
    /// It has a lawful order.
    Lawful,
    /// It has none: behind the end of the operation at this place nothing is reached.
    Unlawful { place: usize },
    /// At the end of the operation at this place there are more configurations than the budget.
    TooMany { place: usize },
}

/// Why there is no verdict.
#[derive(Clone, Copy, Debug, PartialEq, Eq, Drop)]
pub enum SweepError {
    NoMemory,
    /// The operation at this place ended before it began.
    Backwards { place: usize },
}

/// Whether a log of an object has a lawful order. The sweep goes over beginnings and ends, and at each end explores
/// what may be placed by then. A narrow one holds few configurations; where that doesn't get through another one holds
/// all, and gives up if these are more than the budget.
pub fn sweep<O: Object>(
    alloc: Global,
    opening: O,
    log: &[Operation<O::What>],
    budget: usize,
) -> Result<Verdict, SweepError>
    ensures { MatchResult result (IsSweepVerdict O.after opening log.now budget) (IsSweepFault log.now) }
{
    if let Some(place) = first_backwards(log) {
        return Err(SweepError::Backwards { place });
    }
    match sweep_log(alloc, opening, log, budget) {
        Ok(verdict) => Ok(verdict),
        Err(_) => Err(SweepError::NoMemory),
    }
}

fn sweep_log<O: Object>(
    alloc: Global,
    opening: O,
    log: &[Operation<O::What>],
    budget: usize,
) -> Result<Verdict, AllocError>
    requires { RunForwards log.now }
    ensures { IfOk result (IsSweepVerdict O.after opening log.now budget) }
{
    let turns = turns_in(alloc, log)?;
    sweep_events(alloc, opening, log, turns.as_slice(), budget)
}

fn sweep_events<O: Object>(
    alloc: Global,
    opening: O,
    log: &[Operation<O::What>],
    turns: &[Turn],
    budget: usize,
) -> Result<Verdict, AllocError>
    requires forwards { RunForwards log.now }
    requires events { AreEvents log.now (events_at log.now turns.now) }
    ensures { IfOk result (IsSweepVerdict O.after opening log.now budget) }
{
    let Mark {
        mut done,
        mut front,
    } = match sweep_narrowly(alloc, opening, log, turns, budget)? {
        Narrow::Known(verdict) => return Ok(verdict),
        Narrow::Open(mark) => mark,
    };
    while done < turns.len() {
        if let Some(verdict) = pass_event(alloc, log, &turns[done], budget, &mut front)? {
            return Ok(verdict);
        }
        done += 1;
    }
    Ok(Verdict::Lawful)
}

/// The end of the operation at a place: a verdict, or the front behind it.
fn end<O: Object>(
    alloc: Global,
    log: &[Operation<O::What>],
    place: usize,
    budget: usize,
    front: &mut Front<O>,
) -> Result<Option<Verdict>, AllocError>
    ensures { IfOk result (IsEndPassed O.after log.now budget place front.old.under_way.items
        front.old.configurations.items
        front.new.under_way.items front.new.configurations.items) }
{
    if !is_in(place, front.under_way.as_slice()) {
        return Ok(None);
    }
    match pass(
        alloc,
        log,
        front.under_way.as_slice(),
        place,
        front.configurations.as_slice(),
        budget,
    )? {
        None => Ok(Some(Verdict::TooMany { place })),
        Some(kept) => {
            if kept.is_empty() {
                return Ok(Some(Verdict::Unlawful { place }));
            }
            remove(place, &mut front.under_way);
            front.configurations = kept;
            Ok(None)
        }
    }
}

/// One more event: a verdict, or the front behind it.
fn pass_event<O: Object>(
    alloc: Global,
    log: &[Operation<O::What>],
    turn: &Turn,
    budget: usize,
    front: &mut Front<O>,
) -> Result<Option<Verdict>, AllocError>
    ensures { IfOk result (IsEventPassed turn.now.ends O.after log.now budget turn.now.place front.old.under_way.items
        front.old.configurations.items front.new.under_way.items front.new.configurations.items) }
{
    let place = turn.place as usize;
    if turn.ends {
        return end(alloc, log, place, budget, front);
    }
    front.under_way.push(place)?;
    Ok(None)
}
