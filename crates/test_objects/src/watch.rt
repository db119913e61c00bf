//! Logs of a register with compare-and-set, watched as they come, worked by hand.

ghost use Rattle.std.specs.Prelude.{IfSome};
ghost use Rattle.object_watch.specs.Remainders.{AreAhead};
ghost use Rattle.object_watch.specs.Watches.{IsAheadOpen};

use crate::logs::{done, perhaps, unfinished};
use object_core::Operation;
use object_registers::{Exchange, Exchanging};
use object_watch::{Ended, Risen, Watch, WatchError, finish, open_watch, rise, take};
use std::alloc::Global;

/// What became of a log that was watched.
#[derive(Clone, Copy, Debug, PartialEq, Eq)]
enum Outcome {
    Lawful,
    /// At this moment, at which an operation ends that began then.
    LostAt(u64, u64),
    TooManyAt(u64),
    Refused(WatchError),
    NoMemory,
}

/// Watches a log whose operations come by their beginnings: before each, all is known that ended before it began.
fn watched(alloc: Global, log: &[Operation<Exchange>], budget: usize) -> Outcome {
    let Ok(opened) = open_watch(alloc, Exchanging { held: 0 }) else {
        return Outcome::NoMemory;
    };
    let mut watch = opened;
    for i in 0..log.len() {
        let op = log[i];
        match before(alloc, watch, op.starts, budget) {
            Some(Risen::Open(open)) => watch = open,
            Some(Risen::Lost { at, op }) => return Outcome::LostAt(at, op.starts),
            Some(Risen::TooMany { at }) => return Outcome::TooManyAt(at),
            None => return Outcome::NoMemory,
        }
        if let Err(e) = take(&mut watch, op) {
            return Outcome::Refused(e);
        }
    }
    ended(alloc, watch, budget)
}

/// What is known before a moment.
fn before(
    alloc: Global,
    watch: Watch<Exchanging, Exchange>,
    moment: u64,
    budget: usize,
) -> Option<Risen<Exchanging, Exchange>>
    requires { AreAhead 0 watch.held.items }
    ensures { IfSome result IsAheadOpen }
{
    if moment == 0 {
        return Some(Risen::Open(watch));
    }
    rise(alloc, watch, moment - 1, budget).ok()
}

/// What is known of the whole log.
fn ended(alloc: Global, watch: Watch<Exchanging, Exchange>, budget: usize) -> Outcome
    requires { AreAhead 0 watch.held.items }
{
    match finish(alloc, watch, budget) {
        Ok(Ended::Lawful) => Outcome::Lawful,
        Ok(Ended::Lost { at, op }) => Outcome::LostAt(at, op.starts),
        Ok(Ended::TooMany { at }) => Outcome::TooManyAt(at),
        Err(_) => Outcome::NoMemory,
    }
}

/// Takes all of these at once, and then nothing more comes.
fn finished(alloc: Global, log: &[Operation<Exchange>]) -> Outcome {
    let Ok(opened) = open_watch(alloc, Exchanging { held: 0 }) else {
        return Outcome::NoMemory;
    };
    let mut watch = opened;
    for i in 0..log.len() {
        if let Err(e) = take(&mut watch, log[i]) {
            return Outcome::Refused(e);
        }
    }
    ended(alloc, watch, 1000)
}

/// Takes the first of two before a moment is risen to, and the second then.
fn taken_behind(
    alloc: Global,
    first: Operation<Exchange>,
    moment: u64,
    second: Operation<Exchange>,
) -> Outcome {
    let Ok(opened) = open_watch(alloc, Exchanging { held: 0 }) else {
        return Outcome::NoMemory;
    };
    let mut watch = opened;
    if let Err(e) = take(&mut watch, first) {
        return Outcome::Refused(e);
    }
    match before(alloc, watch, moment, 1000) {
        Some(Risen::Open(open)) => watch = open,
        Some(Risen::Lost { at, op }) => return Outcome::LostAt(at, op.starts),
        Some(Risen::TooMany { at }) => return Outcome::TooManyAt(at),
        None => return Outcome::NoMemory,
    }
    match before(alloc, watch, 2, 1000) {
        Some(Risen::Open(open)) => watch = open,
        _ => return Outcome::NoMemory,
    }
    if let Err(e) = take(&mut watch, second) {
        return Outcome::Refused(e);
    }
    ended(alloc, watch, 1000)
}

/// A read behind a compare-and-set of what that took away: lost at the read's end, and a write that comes later is too late.
#[test]
fn lost_at_once(rt: HostRuntime) {
    let log = [
        done(1, 2, Exchange::Sets(5)),
        done(3, 4, Exchange::Swaps(5, 7)),
        done(5, 6, Exchange::Gets(5)),
        done(8, 9, Exchange::Sets(5)),
    ];
    assert_eq!(rt; watched(rt.alloc(), &log, 1000), Outcome::LostAt(6, 5));
    assert_eq!(rt; finished(rt.alloc(), &log), Outcome::LostAt(6, 5));
    assert_eq!(rt; finished(rt.alloc(), &log[..2]), Outcome::Lawful);
}

/// Three writes beside four reads, which show 0, 5, 7 and 5 again: one write of 5 never ended, and another one was there.
#[test]
fn lawful_with_what_overlaps(rt: HostRuntime) {
    let log = [
        unfinished(1, Exchange::Sets(5)),
        done(2, 3, Exchange::Gets(0)),
        done(3, 30, Exchange::Sets(7)),
        done(4, 20, Exchange::Sets(5)),
        done(5, 6, Exchange::Gets(5)),
        done(8, 9, Exchange::Gets(7)),
        done(11, 12, Exchange::Gets(5)),
    ];
    assert_eq!(rt; watched(rt.alloc(), &log, 1000), Outcome::Lawful);
}

/// A write that is over by its end, done or not, excuses a later read of its record, and none behind a read of what was there.
#[test]
fn over_by_its_end(rt: HostRuntime) {
    let done_then = [
        perhaps(1, 2, Exchange::Sets(5)),
        done(3, 4, Exchange::Gets(5)),
    ];
    let too_late = [
        perhaps(1, 2, Exchange::Sets(5)),
        done(3, 4, Exchange::Gets(0)),
        done(5, 6, Exchange::Gets(5)),
    ];
    assert_eq!(rt; watched(rt.alloc(), &done_then, 1000), Outcome::Lawful);
    assert_eq!(rt; watched(rt.alloc(), &too_late, 1000), Outcome::LostAt(6, 5));
}

/// What never ended may take effect late, but once.
#[test]
fn unfinished_once(rt: HostRuntime) {
    let log = [
        unfinished(1, Exchange::Sets(5)),
        done(2, 3, Exchange::Sets(7)),
        done(4, 5, Exchange::Gets(5)),
        done(6, 7, Exchange::Gets(7)),
    ];
    assert_eq!(rt; watched(rt.alloc(), &log[..3], 1000), Outcome::Lawful);
    assert_eq!(rt; watched(rt.alloc(), &log, 1000), Outcome::LostAt(7, 6));
}

/// An operation that ended before it began isn't taken, and a log of none is lawful. What ends at the last moment of all
/// is judged when nothing more comes.
#[test]
fn at_the_limits(rt: HostRuntime) {
    let last = [done(u64::MAX, u64::MAX, Exchange::Gets(3))];
    assert_eq!(rt;
        watched(rt.alloc(), &[done(2, 1, Exchange::Sets(5))], 1000),
        Outcome::Refused(WatchError::Backwards)
    );
    assert_eq!(rt;
        watched(rt.alloc(), &last, 1000),
        Outcome::LostAt(u64::MAX, u64::MAX)
    );
    assert_eq!(rt; watched(rt.alloc(), &last[..0], 1000), Outcome::Lawful);
}

/// Behind a floor what begins at it is taken, and what begins before it is late, also if it ended before it began. A floor
/// that goes back changes nothing.
#[test]
fn late_behind_a_floor(rt: HostRuntime) {
    let write = done(1, 3, Exchange::Sets(5));
    assert_eq!(rt;
        taken_behind(rt.alloc(), write, 4, done(4, 5, Exchange::Gets(5))),
        Outcome::Lawful
    );
    assert_eq!(rt;
        taken_behind(rt.alloc(), write, 4, done(3, 5, Exchange::Gets(5))),
        Outcome::Refused(WatchError::Late)
    );
    assert_eq!(rt;
        taken_behind(rt.alloc(), write, 4, done(3, 2, Exchange::Gets(5))),
        Outcome::Refused(WatchError::Late)
    );
    assert_eq!(rt;
        taken_behind(rt.alloc(), write, 4, done(4, 5, Exchange::Gets(0))),
        Outcome::LostAt(5, 4)
    );
}

/// Operations come in any order, if none begins before the floor. One that began as another ended is beside it.
#[test]
fn out_of_order_and_at_once(rt: HostRuntime) {
    let turned = [
        done(5, 6, Exchange::Gets(7)),
        done(3, 4, Exchange::Swaps(5, 7)),
        done(1, 2, Exchange::Sets(5)),
    ];
    let beside = [
        done(1, 3, Exchange::Sets(5)),
        done(3, 4, Exchange::Gets(0)),
        done(3, 4, Exchange::Gets(5)),
    ];
    let behind = [
        done(1, 3, Exchange::Sets(5)),
        done(4, 4, Exchange::Gets(5)),
        done(4, 4, Exchange::Gets(0)),
    ];
    assert_eq!(rt; finished(rt.alloc(), &turned), Outcome::Lawful);
    assert_eq!(rt; watched(rt.alloc(), &beside, 1000), Outcome::Lawful);
    assert_eq!(rt; watched(rt.alloc(), &behind, 1000), Outcome::LostAt(4, 4));
}

/// Four swaps that end at once, each of what another leaves, go round in a ring, and a fifth read of what none leaves doesn't.
#[test]
fn a_ring_of_equal_ends(rt: HostRuntime) {
    let ring = [
        done(1, 9, Exchange::Swaps(3, 4)),
        done(2, 9, Exchange::Swaps(2, 3)),
        done(3, 9, Exchange::Swaps(1, 2)),
        done(4, 9, Exchange::Swaps(0, 1)),
        done(10, 11, Exchange::Gets(4)),
        done(12, 13, Exchange::Gets(2)),
    ];
    assert_eq!(rt; watched(rt.alloc(), &ring[..5], 1000), Outcome::Lawful);
    assert_eq!(rt; watched(rt.alloc(), &ring, 1000), Outcome::LostAt(13, 12));
}

/// Where nothing may be held, an end is too many; an operation without one needs no budget.
#[test]
fn no_budget(rt: HostRuntime) {
    let log = [
        unfinished(1, Exchange::Sets(5)),
        done(2, 3, Exchange::Gets(0)),
    ];
    assert_eq!(rt; watched(rt.alloc(), &log, 0), Outcome::TooManyAt(3));
    assert_eq!(rt; watched(rt.alloc(), &log[..1], 0), Outcome::Lawful);
}

/// Of twelve writes of different records that never ended one is placed at most before another write, or just before the
/// read of its record. So at an end there are the state before, twelve behind one of them, and the one that is left.
#[test]
fn twelve_crashed_writes(rt: HostRuntime) {
    let mut log = [unfinished(1, Exchange::Sets(1)); 18];
    for k in 1..12 {
        log[k] = unfinished(1 + k as u64, Exchange::Sets(1 + k as u64));
    }
    log[12] = done(30, 31, Exchange::Gets(0));
    log[13] = done(33, 34, Exchange::Sets(20));
    log[14] = done(36, 37, Exchange::Gets(3));
    log[15] = done(39, 40, Exchange::Sets(21));
    log[16] = done(42, 43, Exchange::Gets(5));
    log[17] = done(45, 46, Exchange::Gets(3));
    assert_eq!(rt; watched(rt.alloc(), &log[..17], 14), Outcome::Lawful);
    assert_eq!(rt; watched(rt.alloc(), &log, 14), Outcome::LostAt(46, 45));
    assert_eq!(rt; watched(rt.alloc(), &log, 13), Outcome::TooManyAt(34));
}

/// Of twelve writes of one record that never ended the first is placed, or none. So at an end there are the state before,
/// that behind a write, and the one that is left.
#[test]
fn twelve_equal_crashed_writes(rt: HostRuntime) {
    let mut log = [unfinished(1, Exchange::Sets(1)); 17];
    for k in 1..12 {
        log[k] = unfinished(1 + k as u64, Exchange::Sets(1));
    }
    log[12] = done(30, 31, Exchange::Gets(0));
    log[13] = done(33, 34, Exchange::Sets(20));
    log[14] = done(36, 37, Exchange::Gets(1));
    log[15] = done(39, 40, Exchange::Sets(21));
    log[16] = done(42, 43, Exchange::Gets(1));
    assert_eq!(rt; watched(rt.alloc(), &log, 3), Outcome::Lawful);
    assert_eq!(rt; watched(rt.alloc(), &log, 2), Outcome::TooManyAt(34));
}

/// A write that may have done nothing and ends later need not be placed either; one that ends then has to be or is left out.
#[test]
fn over_later_or_then(rt: HostRuntime) {
    let mut log = [perhaps(1, 50, Exchange::Sets(1)); 14];
    for k in 1..12 {
        log[k] = perhaps(1 + k as u64, 50, Exchange::Sets(1 + k as u64));
    }
    log[12] = done(30, 31, Exchange::Sets(20));
    log[13] = done(51, 52, Exchange::Gets(3));
    assert_eq!(rt; watched(rt.alloc(), &log[..13], 14), Outcome::TooManyAt(50));
    let mut early = [perhaps(1, 9, Exchange::Sets(5)); 3];
    early[1] = done(10, 11, Exchange::Gets(0));
    early[2] = done(12, 13, Exchange::Gets(5));
    assert_eq!(rt; watched(rt.alloc(), &early[..2], 3), Outcome::Lawful);
    assert_eq!(rt; watched(rt.alloc(), &early, 3), Outcome::LostAt(13, 12));
}

/// Reads that never ended, or may have done nothing, are not held.
#[test]
fn twenty_reads_that_nobody_needs(rt: HostRuntime) {
    let mut log = [unfinished(1, Exchange::Gets(0)); 22];
    for k in 1..20 {
        log[k] = perhaps(1 + k as u64, 40, Exchange::Gets(k as u64));
    }
    log[20] = done(30, 31, Exchange::Sets(1));
    log[21] = done(32, 33, Exchange::Gets(1));
    assert_eq!(rt; watched(rt.alloc(), &log, 2), Outcome::Lawful);
    assert_eq!(rt; watched(rt.alloc(), &log, 1), Outcome::TooManyAt(31));
}
