//! Worked logs, and whether they are coherent. Nothing here is taken from the program's own answers.

use history_coherence::{Coherence, Incoherence, Link, check_written, search_coherent};
use history_core::{Kind, Op, SearchError};
use std::alloc::{AllocError, Global};
use std::test::Fail;

macro_rules! op {
    ($who:expr, $kind:ident, $ends:expr, $item:expr) => {
        Op {
            who: $who,
            kind: Kind::$kind,
            starts: 1,
            ends: $ends,
            item: Some($item),
        }
    };
}

/// The operations of a log, and the only order that is coherent.
type Ordered = (&'static [Op<usize>], &'static [usize]);

const ORDERED: &[Ordered] = &[
    (&[], &[]),
    // a stale read, which no atomic order has
    (
        &[op!(0, Write, Some(2), 1), op!(1, Read, Some(2), 0)],
        &[1, 0],
    ),
    // an unfinished write that was read
    (&[op!(0, Write, None, 1), op!(1, Read, Some(2), 1)], &[0, 1]),
    // what a task reads first was written first
    (
        &[
            op!(0, Write, Some(2), 1),
            op!(1, Write, Some(2), 2),
            op!(2, Read, Some(2), 2),
            op!(2, Read, Some(2), 1),
        ],
        &[1, 2, 0, 3],
    ),
    // a refused write saw the opening
    (
        &[
            op!(0, Write, Some(2), 1),
            op!(1, Refused, Some(2), 0),
            op!(1, Read, Some(2), 1),
        ],
        &[1, 0, 2],
    ),
];

fn is_ordered(alloc: Global, row: &Ordered) -> Result<bool, AllocError> {
    let (log, order) = *row;
    match check_written(alloc, log) {
        Ok(()) => {}
        Err(_) => return Ok(false),
    }
    Ok(match search_coherent(alloc, log)? {
        Coherence::Coherent { order: found } => found.as_slice() == order,
        Coherence::Incoherent { .. } => false,
    })
}

#[test]
fn finds_coherent_orders(rt: HostRuntime) -> Result<(), Fail> {
    for (place, row) in ORDERED.iter().enumerate() {
        assert!(rt; is_ordered(rt.alloc(), row)?, "row {place}");
    }
    Ok(())
}

/// Why there is none: an operation without a write, one ahead of its write, or the links of a circle in some turn.
#[derive(Clone, Copy)]
enum Wanted {
    Unwritten(usize),
    Ahead(usize, usize),
    Circle(&'static [Link]),
}

/// The operations of a log, and why no order is coherent.
type Unordered = (&'static [Op<usize>], Wanted);

macro_rules! link {
    ($earlier:expr, $later:expr) => {
        Link {
            earlier: $earlier,
            later: $later,
        }
    };
}

const UNORDERED: &[Unordered] = &[
    (&[op!(0, Read, Some(2), 1)], Wanted::Unwritten(0)),
    (
        &[op!(0, Read, Some(2), 1), op!(0, Write, Some(2), 1)],
        Wanted::Ahead(0, 1),
    ),
    // the opening again
    (
        &[
            op!(0, Write, Some(2), 1),
            op!(1, Read, Some(2), 1),
            op!(1, Read, Some(2), 0),
        ],
        Wanted::Circle(&[link!(1, 2)]),
    ),
    // a task that reads two records backwards
    (
        &[
            op!(0, Write, Some(2), 1),
            op!(0, Write, Some(2), 2),
            op!(1, Read, Some(2), 2),
            op!(1, Read, Some(2), 1),
        ],
        Wanted::Circle(&[link!(0, 1), link!(2, 3)]),
    ),
    // three tasks that read two records each
    (
        &[
            op!(0, Write, Some(2), 1),
            op!(1, Write, Some(2), 2),
            op!(2, Write, Some(2), 3),
            op!(3, Read, Some(2), 1),
            op!(3, Read, Some(2), 2),
            op!(4, Read, Some(2), 2),
            op!(4, Read, Some(2), 3),
            op!(5, Read, Some(2), 3),
            op!(5, Read, Some(2), 1),
        ],
        Wanted::Circle(&[link!(3, 4), link!(5, 6), link!(7, 8)]),
    ),
];

/// Whether these are the links of the circle, which may begin with any of them.
fn is_turn(found: &[Link], circle: &[Link]) -> bool {
    (0..circle.len()).any(|turn| {
        found.len() == circle.len()
            && (0..circle.len()).all(|i| found.get(i) == circle.get((i + turn) % circle.len()))
    })
}

fn is_wanted(reason: &Incoherence, wanted: Wanted) -> bool {
    match (reason, wanted) {
        (Incoherence::Unwritten { read }, Wanted::Unwritten(place)) => *read == place,
        (Incoherence::Ahead { read, write }, Wanted::Ahead(first, second)) => {
            *read == first && *write == second
        }
        (Incoherence::Circle { links }, Wanted::Circle(circle)) => {
            is_turn(links.as_slice(), circle)
        }
        _ => false,
    }
}

fn is_unordered(alloc: Global, row: &Unordered) -> Result<bool, AllocError> {
    let (log, wanted) = *row;
    match check_written(alloc, log) {
        Ok(()) => {}
        Err(_) => return Ok(false),
    }
    Ok(match search_coherent(alloc, log)? {
        Coherence::Coherent { .. } => false,
        Coherence::Incoherent { reason } => is_wanted(&reason, wanted),
    })
}

#[test]
fn finds_reasons(rt: HostRuntime) -> Result<(), Fail> {
    for (place, row) in UNORDERED.iter().enumerate() {
        assert!(rt; is_unordered(rt.alloc(), row)?, "row {place}");
    }
    Ok(())
}

#[test]
fn refuses_records_written_twice(rt: HostRuntime) -> Result<(), Fail> {
    let twice = [op!(0, Write, Some(2), 1), op!(1, Write, Some(2), 1)];
    let opening = [op!(0, Write, Some(2), 1), op!(1, Write, None, 0)];
    assert!(rt;
        check_written(rt.alloc(), &twice)
            == Err(SearchError::WritesTwice {
                first: 0,
                second: 1
            })
    );
    assert!(rt;
        check_written(rt.alloc(), &opening) == Err(SearchError::WritesOpening { place: 1 })
    );
    Ok(())
}
