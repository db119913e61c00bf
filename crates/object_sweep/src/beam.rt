//! A sweep that holds few configurations: it may find a lawful order where there are too many to hold them all.

ghost use Rattle.std.specs.Prelude.{◌≡◌, ◌<◌, IfOk, OnOk, true};
ghost use Rattle.object_sweep.specs.Rests.{RunForwards};
ghost use Rattle.object_sweep.specs.inner.Beams.{AreLeftOf, IsFirstMark, IsMarkOf, IsNarrow, MayHaveMarked};
ghost use Rattle.object_sweep.specs.inner.Ends.{IsNarrowlyPassed};
ghost use Rattle.object_sweep.specs.inner.Events.{AreEvents, events_at};

use crate::at_hand::AtHand;
use crate::event::Turn;
use crate::front::{Front, Mark, copied_front, first_front};
use crate::log_sweep::Verdict;
use crate::narrow::{NARROW, Passed, pass_narrowly};
use crate::places::{is_in, remove};
use object_core::{Object, Operation};
use std::alloc::{AllocError, Global};

/// How many configurations are held at most.
const WIDEST: usize = 512;
/// What the width grows by where nothing is left.
const GROWS_BY: usize = 2;
/// The events from one mark to the next.
const MARK_EVERY: usize = 512;
/// How often an event may be passed, in the mean, where few are held.
const PASSES: usize = 4;
/// What may be passed beside that, so that a short log has room to be wider.
const SPARE: usize = 128;
/// How many operations that have an end may be under way at once.
const MOST_AT_ONCE: usize = 24;

/// What one event leads to.
#[derive(Clone, Copy, PartialEq, Eq, Drop)]
pub(crate) enum Passing {
    /// On: something is held behind it.
    On,
    /// The log is lost there, as nothing was left out.
    Lost,
    /// Nothing is held, and something was left out.
    Nothing,
}

/// What a narrow sweep leads to.
#[derive(Drop)]
pub(crate) enum Narrow<O> {
    Known(Verdict),
    /// No verdict, and a front in which nothing was left out.
    Open(Mark<O>),
}

/// How many are held, and until which event, and how many marks to go back if nothing is.
#[derive(Clone, Copy, Drop)]
struct Beam {
    width: usize,
    /// Whether what never ended is placed only where nothing is left without it.
    sparing: bool,
    back: usize,
    until: usize,
}

impl Beam {
    const fn narrow() -> Beam {
        Beam {
            width: NARROW,
            sparing: true,
            back: 1,
            until: 0,
        }
    }

    /// One that finds more, until well behind this event.
    const fn widened(self, done: usize, has_unfinished: bool) -> Beam {
        let until = done.saturating_add(MARK_EVERY);
        if self.sparing && has_unfinished {
            return Beam {
                sparing: false,
                until,
                ..self
            };
        }
        Beam {
            width: self.width.saturating_mul(GROWS_BY),
            sparing: false,
            back: self.width / NARROW,
            until,
        }
    }

    /// The same, or a narrower one where it has gone far enough.
    const fn behind(self, done: usize) -> Beam {
        if done < self.until {
            self
        } else if self.width > NARROW {
            Beam {
                width: self.width / GROWS_BY,
                until: done.saturating_add(MARK_EVERY),
                ..self
            }
        } else {
            Beam::narrow()
        }
    }
}

/// The end of the operation at a place, behind which no more are held than the beam is wide.
fn end_narrowly<O: Object>(
    alloc: Global,
    log: &[Operation<O::What>],
    place: usize,
    beam: Beam,
    at_hand: &mut AtHand,
    front: &mut Front<O>,
) -> Result<Passing, AllocError>
    ensures { IfOk result (IsNarrowlyPassed true O.after log.now place front.old.whole front.old.under_way.items
        front.old.configurations.items front.new.whole front.new.under_way.items front.new.configurations.items) }
{
    if !is_in(place, front.under_way.as_slice()) {
        return Ok(Passing::On);
    }
    let held = front.configurations.as_slice();
    let Passed { kept, whole } = pass_narrowly(
        alloc,
        log,
        front.under_way.as_slice(),
        &*at_hand,
        beam.sparing,
        place,
        held,
        beam.width,
    )?;
    if kept.is_empty() {
        let lost = front.whole && whole;
        return Ok(if lost {
            Passing::Lost
        } else {
            Passing::Nothing
        });
    }
    remove(place, &mut front.under_way);
    at_hand.end(place);
    front.configurations = kept;
    front.whole = front.whole && whole;
    Ok(Passing::On)
}

/// One more event.
fn pass_event_narrowly<O: Object>(
    alloc: Global,
    log: &[Operation<O::What>],
    turn: &Turn,
    beam: Beam,
    at_hand: &mut AtHand,
    front: &mut Front<O>,
) -> Result<Passing, AllocError>
    ensures { IfOk result (IsNarrowlyPassed turn.now.ends O.after log.now turn.now.place front.old.whole
        front.old.under_way.items front.old.configurations.items front.new.whole front.new.under_way.items
        front.new.configurations.items) }
{
    let place = turn.place as usize;
    if turn.ends {
        return end_narrowly(alloc, log, place, beam, at_hand, front);
    }
    at_hand.begin::<O>(alloc, log, place)?;
    front.under_way.push(place)?;
    Ok(Passing::On)
}

/// The mark before all events.
fn first_mark<O: Object>(alloc: Global, opening: O) -> Result<Mark<O>, AllocError>
    ensures { IfOk result (IsFirstMark opening) }
{
    let front = first_front(alloc, opening)?;
    Ok(Mark { done: 0, front })
}

/// Marks this place, at every so many events.
fn mark<O: Object>(alloc: Global, at: &Mark<O>, marks: &mut Vec<Mark<O>>) -> Result<(), AllocError>
    ensures { OnOk result (MayHaveMarked at.now marks.old.items marks.new.items) }
{
    if at.done % MARK_EVERY != 0 {
        return Ok(());
    }
    let front = copied_front(alloc, &at.front)?;
    marks.push(Mark {
        done: at.done,
        front,
    })?;
    Ok(())
}

/// The mark that is so many back; those before it are left.
fn go_back<O: Object>(
    alloc: Global,
    opening: O,
    back: usize,
    marks: &mut Vec<Mark<O>>,
) -> Result<Mark<O>, AllocError>
    ensures { IfOk result (λ mark.
        IsMarkOf opening marks.old.items mark × AreLeftOf marks.old.items marks.new.items) }
{
    let left = marks.len().saturating_sub(back.saturating_sub(1));
    marks.truncate(left);
    match marks.pop() {
        Some(mark) => Ok(mark),
        None => first_mark(alloc, opening),
    }
}

/// The last mark at which nothing was left out.
fn last_whole<O: Object>(
    alloc: Global,
    opening: O,
    marks: Vec<Mark<O>>,
) -> Result<Mark<O>, AllocError>
    ensures { IfOk result (λ mark. IsMarkOf opening marks.items mark × (mark.front.whole ≡ true)) }
{
    let mut marks = marks;
    while let Some(mark) = marks.pop() {
        if mark.front.whole {
            return Ok(mark);
        }
    }
    first_mark(alloc, opening)
}

/// What an event counts at which so many configurations are held: they are compared with each other.
const fn cost_of(held: usize) -> usize
    ensures { 0 < result }
{
    let times = held / NARROW;
    let square = times.saturating_mul(times);
    if square == 0 { 1 } else { square }
}

/// Sweeps with few configurations. Where nothing is left it goes back to a mark, and is wider for a while.
pub(crate) fn sweep_narrowly<O: Object>(
    alloc: Global,
    opening: O,
    log: &[Operation<O::What>],
    turns: &[Turn],
    budget: usize,
) -> Result<Narrow<O>, AllocError>
    requires forwards { RunForwards log.now }
    requires events { AreEvents log.now (events_at log.now turns.now) }
    ensures { IfOk result (IsNarrow O.after opening log.now (events_at log.now turns.now) budget) }
{
    let mut marks = Vec::new(alloc);
    let mut at = first_mark(alloc, opening)?;
    let mut beam = Beam::narrow();
    let mut at_hand = AtHand::new(alloc);
    let mut left = turns.len().saturating_mul(PASSES).saturating_add(SPARE);
    while at.done < turns.len() && left > 0 && beam.width <= budget.min(WIDEST) {
        let turn = &turns[at.done];
        if turn.ends && at_hand.with_end.len() > MOST_AT_ONCE {
            break;
        }
        left = left.saturating_sub(cost_of(at.front.configurations.len()));
        match pass_event_narrowly(alloc, log, turn, beam, &mut at_hand, &mut at.front)? {
            Passing::On => {
                at.done += 1;
                beam = beam.behind(at.done);
                mark(alloc, &at, &mut marks)?;
            }
            Passing::Lost => {
                let place = turn.place as usize;
                return Ok(Narrow::Known(Verdict::Unlawful { place }));
            }
            Passing::Nothing => {
                beam = beam.widened(at.done, !at_hand.unfinished.is_empty());
                at = go_back(alloc, opening, beam.back, &mut marks)?;
                at_hand.go_back(log, at.front.under_way.as_slice())?;
            }
        }
    }
    if at.done < turns.len() {
        return Ok(Narrow::Open(last_whole(alloc, opening, marks)?));
    }
    Ok(Narrow::Known(Verdict::Lawful))
}
