//! Windows worked by hand: few operations that no order has, whatever the register held before.

use crate::logs::{done, unfinished};
use object_core::Operation;
use object_registers::Exchange;
use object_window::{Loss, find_window, little_log, loss_of};
use std::alloc::Global;

/// A write of 5, a compare-and-set from 5 to 7 behind it, and a read of 5 behind that.
fn stale() -> [Operation<Exchange>; 3] {
    [
        done(1, 2, Exchange::Sets(5)),
        done(3, 4, Exchange::Swaps(5, 7)),
        done(5, 6, Exchange::Gets(5)),
    ]
}

fn loss(alloc: Global, log: &[Operation<Exchange>], budget: usize) -> Option<Loss> {
    loss_of(alloc, log, budget).ok()
}

/// The first moment and the last one of the window that is found, with the number of its operations.
fn found(alloc: Global, log: &[Operation<Exchange>], place: usize) -> Option<(u64, u64, usize)> {
    match find_window(alloc, log, place) {
        Ok(Some(window)) => Some((window.first, window.last, window.places.len())),
        _ => None,
    }
}

/// How many operations the window from one moment to 6 has.
fn length(alloc: Global, first: u64, places: &[usize]) -> Option<usize> {
    match little_log(alloc, &stale(), first, 6, places) {
        Ok(Some(little)) => Some(little.len()),
        _ => None,
    }
}

/// What a compare-and-set took away is read behind it, whatever was there before: the write had ended before it.
#[test]
fn found_without_the_write(rt: HostRuntime) {
    let alloc = rt.alloc();
    assert_eq!(rt; found(alloc, &stale(), 2), Some((3, 6, 2)));
    assert_eq!(rt; length(alloc, 3, &[1, 2]), Some(2));
    assert_eq!(rt; length(alloc, 2, &[1, 2]), None);
    assert_eq!(rt; length(alloc, 3, &[2, 1]), None);
}

/// A window may begin with its last moment: two reads of one moment gave different records.
#[test]
fn found_at_one_moment(rt: HostRuntime) {
    let alloc = rt.alloc();
    let log = [
        done(1, 5, Exchange::Sets(3)),
        done(6, 6, Exchange::Gets(3)),
        done(6, 6, Exchange::Gets(4)),
    ];
    assert_eq!(rt; found(alloc, &log, 2), Some((6, 6, 2)));
}

/// Writes of other records that never ended don't hide a window.
#[test]
fn found_beside_unfinished_writes(rt: HostRuntime) {
    let alloc = rt.alloc();
    let log = [
        unfinished(1, Exchange::Sets(100)),
        unfinished(1, Exchange::Sets(101)),
        unfinished(1, Exchange::Sets(102)),
        unfinished(1, Exchange::Sets(103)),
        unfinished(1, Exchange::Sets(104)),
        unfinished(1, Exchange::Sets(105)),
        unfinished(1, Exchange::Sets(106)),
        done(10, 11, Exchange::Sets(5)),
        done(20, 21, Exchange::Gets(9)),
    ];
    assert_eq!(rt; found(alloc, &log, 8), Some((10, 21, 2)));
}

/// Of compare-and-sets whose records nobody reads each can be left out, in whatever order they stand.
#[test]
fn found_without_a_chain(rt: HostRuntime) {
    let alloc = rt.alloc();
    let log = [
        unfinished(14, Exchange::Tries(103, 104)),
        unfinished(13, Exchange::Tries(102, 103)),
        unfinished(12, Exchange::Tries(101, 102)),
        unfinished(11, Exchange::Tries(100, 101)),
        done(10, 11, Exchange::Sets(5)),
        done(20, 21, Exchange::Gets(9)),
    ];
    assert_eq!(rt; found(alloc, &log, 5), Some((10, 21, 2)));
}

/// A log that is lawful from some record isn't lost from anywhere: from the one that is read, or from one that nothing
/// asks for.
#[test]
fn lawful_from_one(rt: HostRuntime) {
    let alloc = rt.alloc();
    let read = [done(1, 2, Exchange::Gets(1))];
    let misses = [
        done(1, 2, Exchange::Misses(1)),
        done(3, 4, Exchange::Misses(0)),
    ];
    let both = [done(1, 2, Exchange::Gets(1)), done(3, 4, Exchange::Gets(2))];
    assert_eq!(rt; loss(alloc, &read, 100), Some(Loss::NotFrom { held: 1 }));
    assert_eq!(rt; loss(alloc, &misses, 100), Some(Loss::NotFrom { held: 2 }));
    assert_eq!(rt; loss(alloc, &both, 100), Some(Loss::Anywhere));
    assert_eq!(rt;
        loss(alloc, &both, 0),
        Some(Loss::TooMany { held: 1, place: 0 })
    );
    assert_eq!(rt; found(alloc, &read, 0), None);
}
