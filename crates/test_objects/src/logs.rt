//! Logs worked by hand: whether one has a lawful order, by the sweep.

use crate::{Lock, Turn};
use object_core::{Object, Operation};
use object_registers::{Access, Exchange, Exchanging, Limited};
use object_sweep::{SweepError, Verdict, sweep};
use std::alloc::Global;

/// An operation that ended and took effect.
pub(crate) fn done<W>(starts: u64, ends: u64, what: W) -> Operation<W> {
    Operation {
        starts,
        ends: Some(ends),
        maybe: false,
        what,
    }
}

/// One that ended, and may have done nothing.
pub(crate) fn perhaps<W>(starts: u64, ends: u64, what: W) -> Operation<W> {
    Operation {
        starts,
        ends: Some(ends),
        maybe: true,
        what,
    }
}

/// One that never ended.
pub(crate) fn unfinished<W>(starts: u64, what: W) -> Operation<W> {
    Operation {
        starts,
        ends: None,
        maybe: false,
        what,
    }
}

/// The verdict on a log of a register that holds 0.
fn of_register(alloc: Global, log: &[Operation<Exchange>]) -> Option<Verdict> {
    verdict(alloc, Exchanging { held: 0 }, log)
}

fn verdict<O: Object>(alloc: Global, opening: O, log: &[Operation<O::What>]) -> Option<Verdict> {
    sweep(alloc, opening, log, 100).ok()
}

/// A read may have what a write beside it leaves, or what was there before; behind that write's end it has what it
/// left.
#[test]
fn reads(rt: HostRuntime) {
    let alloc = rt.alloc();
    let write = done(1, 4, Exchange::Sets(1));
    for (starts, ends, seen, wanted) in [
        (2, 3, 0, Verdict::Lawful),
        (2, 3, 1, Verdict::Lawful),
        (4, 5, 0, Verdict::Lawful),
        (5, 6, 1, Verdict::Lawful),
        (5, 6, 0, Verdict::Unlawful { place: 1 }),
        (5, 6, 2, Verdict::Unlawful { place: 1 }),
    ] {
        let log = [write, done(starts, ends, Exchange::Gets(seen))];
        assert_eq!(rt;
            of_register(alloc, &log),
            Some(wanted),
            "{seen} from {starts} to {ends}"
        );
    }
}

/// What was read once may be read again only if it was written again; a write that never ended takes effect once.
#[test]
fn repeats(rt: HostRuntime) {
    let alloc = rt.alloc();
    let over = done(4, 5, Exchange::Sets(0));
    let again = done(6, 7, Exchange::Gets(1));
    let late = unfinished(1, Exchange::Sets(1));
    let seen = done(2, 3, Exchange::Gets(1));
    assert_eq!(rt;
        of_register(alloc, &[late, over, again]),
        Some(Verdict::Lawful)
    );
    assert_eq!(rt;
        of_register(alloc, &[late, seen, over, again]),
        Some(Verdict::Unlawful { place: 3 })
    );
    let twice = unfinished(1, Exchange::Sets(1));
    assert_eq!(rt;
        of_register(alloc, &[late, twice, seen, over, again]),
        Some(Verdict::Lawful)
    );
}

/// A write that may have done nothing takes effect before its end, or not at all.
#[test]
fn perhaps_written(rt: HostRuntime) {
    let alloc = rt.alloc();
    let write = perhaps(1, 2, Exchange::Sets(1));
    let old = done(3, 4, Exchange::Gets(0));
    let new = done(5, 6, Exchange::Gets(1));
    assert_eq!(rt; of_register(alloc, &[write, old]), Some(Verdict::Lawful));
    assert_eq!(rt; of_register(alloc, &[write, new]), Some(Verdict::Lawful));
    assert_eq!(rt;
        of_register(alloc, &[write, old, new]),
        Some(Verdict::Unlawful { place: 2 })
    );
}

/// Of two swaps from one record side by side one has to fail; a chain of two may stand in one order alone.
#[test]
fn swaps(rt: HostRuntime) {
    let alloc = rt.alloc();
    let first = done(1, 4, Exchange::Swaps(0, 1));
    for (what, wanted) in [
        (Exchange::Swaps(1, 2), Verdict::Lawful),
        (Exchange::Swaps(0, 2), Verdict::Unlawful { place: 0 }),
        (Exchange::Misses(0), Verdict::Lawful),
        (Exchange::Finds(2, 1), Verdict::Lawful),
        (Exchange::Finds(1, 1), Verdict::Unlawful { place: 1 }),
        (Exchange::Tries(5, 6), Verdict::Lawful),
    ] {
        assert_eq!(rt;
            of_register(alloc, &[first, done(2, 3, what)]),
            Some(wanted),
            "{what:?}"
        );
    }
}

/// A refused write stands behind as many writes as were due, also one that never ended.
#[test]
fn limits(rt: HostRuntime) {
    let alloc = rt.alloc();
    let opening = Limited { held: 5, due: 2 };
    let write = done(1, 2, Access::Writes(6));
    let refused = done(3, 4, Access::IsRefused(6));
    assert_eq!(rt;
        verdict(alloc, opening, &[write, refused]),
        Some(Verdict::Unlawful { place: 1 })
    );
    let other = unfinished(1, Access::Writes(7));
    assert_eq!(rt;
        verdict(alloc, opening, &[write, refused, other]),
        Some(Verdict::Lawful)
    );
}

/// A lock is taken once it is let go.
#[test]
fn locks(rt: HostRuntime) {
    let alloc = rt.alloc();
    let free = Lock { holder: None };
    let one = done(1, 2, Turn::Took(1));
    let other = done(3, 6, Turn::Took(2));
    assert_eq!(rt;
        verdict(alloc, free, &[one, other]),
        Some(Verdict::Unlawful { place: 1 })
    );
    let let_go = done(4, 5, Turn::LetGo(1));
    assert_eq!(rt;
        verdict(alloc, free, &[one, other, let_go]),
        Some(Verdict::Lawful)
    );
}

/// Of 40 reads beside a write not each set is a configuration. Where none of them has to stand in an order there are
/// those before the write and behind it alone.
#[test]
fn many_reads(rt: HostRuntime) {
    let alloc = rt.alloc();
    let mut log = [done(1, 100, Exchange::Sets(1)); 41];
    for k in 1..41 {
        log[k] = done(2, 50 + k as u64, Exchange::Gets(k as u64 % 2));
    }
    assert_eq!(rt; of_register(alloc, &log), Some(Verdict::Lawful));
    log[40] = done(2, 90, Exchange::Gets(2));
    assert_eq!(rt;
        of_register(alloc, &log),
        Some(Verdict::Unlawful { place: 40 })
    );
    for k in 1..41 {
        log[k] = unfinished(2, Exchange::Gets(k as u64 % 2));
    }
    let opening = Exchanging { held: 0 };
    assert_eq!(rt; sweep(alloc, opening, &log, 1).ok(), Some(Verdict::Lawful));
    for k in 1..41 {
        log[k] = perhaps(2, 3, Exchange::Gets(k as u64 % 2));
    }
    assert_eq!(rt; sweep(alloc, opening, &log, 2).ok(), Some(Verdict::Lawful));
}

/// Of 20 equal writes beside another one the first to end is placed alone, before that one or behind it.
#[test]
fn many_equal_writes(rt: HostRuntime) {
    let alloc = rt.alloc();
    let mut log = [done(1, 100, Exchange::Sets(1)); 21];
    for k in 1..21 {
        log[k] = done(2, 50 + k as u64, Exchange::Sets(2));
    }
    assert_eq!(rt; of_register(alloc, &log), Some(Verdict::Lawful));
    let opening = Exchanging { held: 0 };
    for (budget, wanted) in [(2, Verdict::TooMany { place: 2 }), (3, Verdict::Lawful)] {
        assert_eq!(rt; sweep(alloc, opening, &log, budget).ok(), Some(wanted));
    }
}

/// A log is lost at the first end that is one too many, also of those at one moment.
#[test]
fn lost(rt: HostRuntime) {
    let alloc = rt.alloc();
    let swap = done(1, 3, Exchange::Swaps(0, 1));
    let later = done(1, 4, Exchange::Swaps(0, 1));
    for (log, place) in [
        ([swap, swap, swap], 1),
        ([later, swap, later], 0),
        ([later, later, swap], 0),
        ([swap, later, swap], 2),
    ] {
        assert_eq!(rt;
            of_register(alloc, &log),
            Some(Verdict::Unlawful { place }),
            "{log:?}"
        );
    }
}

/// Two writes side by side make four configurations at the first end, two of which have it behind them.
#[test]
fn budgets(rt: HostRuntime) {
    let alloc = rt.alloc();
    let opening = Exchanging { held: 0 };
    let log = [done(1, 4, Exchange::Sets(1)), done(1, 5, Exchange::Sets(2))];
    for (budget, wanted) in [
        (0, Verdict::TooMany { place: 0 }),
        (1, Verdict::TooMany { place: 0 }),
        (2, Verdict::Lawful),
    ] {
        assert_eq!(rt;
            sweep(alloc, opening, &log, budget).ok(),
            Some(wanted),
            "budget {budget}"
        );
    }
    let backwards = [done(3, 2, Exchange::Sets(1))];
    assert_eq!(rt;
        sweep(alloc, opening, &backwards, 9).err(),
        Some(SweepError::Backwards { place: 0 })
    );
}

/// Of eleven writes side by side more than 600 configurations are reached at the first end, which is that of place 1.
/// Yet few that are held are enough to find that a read may have what the one that ended last left, or one that ended
/// in between; that it may not have a record that none left, only all of them show.
#[test]
fn few_configurations_are_enough(rt: HostRuntime) {
    let alloc = rt.alloc();
    let opening = Exchanging { held: 0 };
    let mut log = [done(1, 100, Exchange::Sets(1)); 12];
    for k in 1..11 {
        log[k] = done(2, 50 + k as u64, Exchange::Sets(k as u64 + 1));
    }
    let cases = [
        (1, Verdict::Lawful),
        (7, Verdict::Lawful),
        (99, Verdict::TooMany { place: 1 }),
    ];
    for (seen, wanted) in cases {
        log[11] = done(200, 201, Exchange::Gets(seen));
        assert_eq!(rt;
            sweep(alloc, opening, &log, 600).ok(),
            Some(wanted),
            "seen {seen}"
        );
    }
}
