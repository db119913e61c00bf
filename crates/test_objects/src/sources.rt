//! Records that an operation can't have found, worked by hand.

use crate::logs::{done, unfinished};
use object_core::Operation;
use object_registers::Exchange;
use object_sources::{Unsourced, unsourced_at};

/// A read of 5, two writes that leave 5 behind it, of which the second begins first, and a read of 7.
fn late() -> [Operation<Exchange>; 4] {
    [
        done(1, 2, Exchange::Gets(5)),
        done(7, 8, Exchange::Sets(5)),
        done(4, 6, Exchange::Swaps(3, 5)),
        done(9, 9, Exchange::Gets(7)),
    ]
}

/// Nobody leaves 7, and 5 is first left by the later one of two lines. With 7 for the opening it was there before.
#[test]
fn found_too_early_or_never_left(rt: HostRuntime) {
    assert_eq!(rt;
        unsourced_at(0, &late(), 0),
        Some(Unsourced::Early { source: 2 })
    );
    assert_eq!(rt; unsourced_at(0, &late(), 3), Some(Unsourced::Unwritten));
    assert_eq!(rt; unsourced_at(7, &late(), 3), None);
    assert_eq!(rt; unsourced_at(5, &late(), 0), None);
}

/// A write finds nothing, nor does an operation beyond the log.
#[test]
fn nothing_was_found(rt: HostRuntime) {
    assert_eq!(rt; unsourced_at(0, &late(), 1), None);
    assert_eq!(rt; unsourced_at(0, &late(), 4), None);
    assert_eq!(rt;
        unsourced_at(0, &[unfinished(1, Exchange::Gets(7))], 0),
        None
    );
    assert_eq!(rt;
        unsourced_at(0, &[done(1, 2, Exchange::Misses(7))], 0),
        None
    );
    assert_eq!(rt;
        unsourced_at(0, &[done(1, 2, Exchange::Tries(7, 8))], 0),
        None
    );
}

/// Of two that began at once the first is told, and a compare-and-set from a record to itself leaves none.
#[test]
fn of_several_the_first(rt: HostRuntime) {
    let log = [
        done(1, 2, Exchange::Gets(5)),
        done(3, 4, Exchange::Swaps(5, 5)),
        done(6, 9, Exchange::Sets(5)),
        done(6, 7, Exchange::Sets(5)),
    ];
    assert_eq!(rt;
        unsourced_at(0, &log, 0),
        Some(Unsourced::Early { source: 2 })
    );
}

/// What began by the read's end may have left its record, even if it never ended; its own compare-and-set may not.
#[test]
fn left_in_time_or_by_itself(rt: HostRuntime) {
    let touching = [
        done(1, 2, Exchange::Gets(5)),
        unfinished(2, Exchange::Tries(0, 5)),
    ];
    assert_eq!(rt; unsourced_at(0, &touching, 0), None);
    assert_eq!(rt;
        unsourced_at(0, &[done(1, 2, Exchange::Swaps(5, 5))], 0),
        Some(Unsourced::Unwritten)
    );
    assert_eq!(rt;
        unsourced_at(0, &[done(1, 2, Exchange::Finds(5, 7))], 0),
        Some(Unsourced::Unwritten)
    );
}
