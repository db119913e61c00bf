//! Worked logs and their answers. Nothing here is taken from the program's own answers.

use history_check::check_order;
use history_core::{History, Items, Kind, Op, Reason, Search, SearchError, Term, Verdict};
use history_search::find_order;
use std::alloc::{AllocError, Global};
use std::test::Fail;

/// The records: the opening, and two others.
const O: u64 = 0;

const A: u64 = 1;

const B: u64 = 2;

macro_rules! op {
    ($kind:ident, $starts:expr, $ends:expr, $item:expr) => {
        Op {
            who: 0,
            kind: Kind::$kind,
            starts: $starts,
            ends: $ends,
            item: Some($item),
        }
    };
}

fn log(alloc: Global, term: Term, ops: &[Op<u64>]) -> Result<History<u64>, AllocError> {
    let terms = Items::new(vec![in alloc; term]?);
    Ok(History {
        opening: O,
        terms,
        ops: Items::new(ops.to_vec(alloc)?),
    })
}

/// The limit of a log's term, its operations, and the order that is found.
type Found = (u64, &'static [Op<u64>], &'static [usize]);

const FOUND: &[Found] = &[
    (1, &[], &[]),
    (
        1,
        &[op!(Write, 0, Some(4), A), op!(Read, 5, Some(9), A)],
        &[0, 1],
    ),
    (
        1,
        &[
            op!(Write, 0, Some(9), A),
            op!(Read, 1, Some(2), O),
            op!(Read, 3, Some(4), A),
        ],
        &[1, 0, 2],
    ),
    (2, AT_THE_LIMIT, &[0, 1, 2]),
    // the later refused write of `IN_TURN` with the write of its record
    (
        1,
        &[op!(Write, 2, Some(3), A), op!(Refused, 4, Some(5), A)],
        &[0, 1],
    ),
];

const AT_THE_LIMIT: &[Op<u64>] = &[
    op!(Write, 0, None, A),
    op!(Write, 0, Some(3), B),
    op!(Refused, 5, Some(6), B),
];

/// Whether the order that is found is this one, and the check calls it lawful.
fn is_order(history: &History<u64>, found: Search, order: &[usize]) -> bool {
    match found {
        Search::Order(found) => {
            found.as_slice() == order && check_order(history, order) == Verdict::Lawful
        }
        _ => false,
    }
}

fn is_found(alloc: Global, row: &Found) -> Result<bool, AllocError> {
    let (limit, ops, order) = *row;
    let history = log(alloc, Term { first: 0, limit }, ops)?;
    Ok(match find_order(alloc, &history) {
        Ok(found) => is_order(&history, found, order),
        Err(_) => false,
    })
}

#[test]
fn finds_orders(rt: HostRuntime) -> Result<(), Fail> {
    for (place, row) in FOUND.iter().enumerate() {
        assert!(rt; is_found(rt.alloc(), row)?, "row {place}");
    }
    Ok(())
}

/// The limit of a log's term, its operations, and why there is no order.
type Unlawful = (u64, &'static [Op<u64>], Reason);

const UNLAWFUL: &[Unlawful] = &[
    // reads
    (
        1,
        &[
            op!(Write, 0, Some(9), A),
            op!(Read, 1, Some(2), A),
            op!(Read, 3, Some(4), O),
        ],
        Reason::Stale { before: 1, read: 2 },
    ),
    (
        1,
        &[op!(Read, 0, Some(1), A), op!(Write, 2, Some(3), A)],
        Reason::Early { read: 0, write: 1 },
    ),
    (
        1,
        &[op!(Read, 0, Some(1), A)],
        Reason::Unwritten { read: 0 },
    ),
    // crossings
    (
        1,
        &[
            op!(Write, 0, Some(1), A),
            op!(Write, 2, Some(3), B),
            op!(Read, 4, Some(5), A),
        ],
        Reason::Crossed {
            a: 0,
            b: 1,
            c: 1,
            d: 2,
        },
    ),
    (
        1,
        &[
            op!(Write, 0, Some(9), A),
            op!(Write, 0, Some(9), B),
            op!(Read, 1, Some(2), A),
            op!(Read, 3, Some(4), B),
            op!(Read, 5, Some(6), A),
        ],
        Reason::Crossed {
            a: 2,
            b: 3,
            c: 3,
            d: 4,
        },
    ),
    // limits
    (
        1,
        &[op!(Write, 0, None, A), op!(Refused, 5, Some(6), O)],
        Reason::Limit { refused: 1 },
    ),
    (3, AT_THE_LIMIT, Reason::Limit { refused: 2 }),
    (1, IN_TURN, Reason::Limit { refused: 0 }),
    // Each of the two refused writes may be the later one, and then has two writes before it. The earlier one has one.
    (
        2,
        &[
            op!(Write, 0, Some(9), A),
            op!(Write, 0, Some(9), B),
            op!(Refused, 0, Some(9), A),
            op!(Refused, 0, Some(9), B),
        ],
        Reason::Limit { refused: 2 },
    ),
];

fn is_unlawful(alloc: Global, row: &Unlawful) -> Result<bool, AllocError> {
    let (limit, ops, reason) = *row;
    let history = log(alloc, Term { first: 0, limit }, ops)?;
    Ok(match find_order(alloc, &history) {
        Ok(Search::Unlawful(told)) => told == reason,
        _ => false,
    })
}

#[test]
fn tells_reasons(rt: HostRuntime) -> Result<(), Fail> {
    for (place, row) in UNLAWFUL.iter().enumerate() {
        assert!(rt; is_unlawful(rt.alloc(), row)?, "row {place}");
    }
    Ok(())
}

/// One after the other. In their only order that keeps listing, precedence and reading the first has no write before
/// it, and the last has one. So with the limit 1 the last isn't limited, though a refused write before it has too few.
const IN_TURN: &[Op<u64>] = &[
    op!(Refused, 0, Some(1), O),
    op!(Write, 2, Some(3), A),
    op!(Refused, 4, Some(5), A),
];

const ORDERS_IN_TURN: &[(&[usize], Verdict)] = &[
    (&[0, 1, 2], Verdict::Limit),
    (&[0, 2, 1], Verdict::Precedence),
    (&[1, 0, 2], Verdict::Precedence),
    (&[1, 2, 0], Verdict::Precedence),
    (&[2, 0, 1], Verdict::Precedence),
    (&[2, 1, 0], Verdict::Precedence),
];

#[test]
fn only_order_in_turn(rt: HostRuntime) -> Result<(), Fail> {
    let history = log(rt.alloc(), Term { first: 0, limit: 1 }, IN_TURN)?;
    for (place, (order, verdict)) in ORDERS_IN_TURN.iter().enumerate() {
        assert!(rt; check_order(&history, order) == *verdict, "row {place}");
    }
    Ok(())
}

const TWICE: &[Op<u64>] = &[op!(Write, 0, Some(1), A), op!(Write, 2, Some(3), A)];

const OPENING: &[Op<u64>] = &[op!(Write, 0, Some(1), O)];

const BACKWARDS: &[Op<u64>] = &[op!(Write, 0, Some(1), A), op!(Read, 3, Some(2), A)];

const ERRORS: &[(&[Op<u64>], SearchError)] = &[
    (
        TWICE,
        SearchError::WritesTwice {
            first: 0,
            second: 1,
        },
    ),
    (OPENING, SearchError::WritesOpening { place: 0 }),
    (BACKWARDS, SearchError::Backwards { place: 1 }),
];

/// Why the log isn't searched, if it isn't.
fn error_of(
    alloc: Global,
    first: usize,
    ops: &[Op<u64>],
) -> Result<Option<SearchError>, AllocError> {
    let history = log(alloc, Term { first, limit: 1 }, ops)?;
    Ok(find_order(alloc, &history).err())
}

#[test]
fn not_searched(rt: HostRuntime) -> Result<(), Fail> {
    for (place, (ops, error)) in ERRORS.iter().enumerate() {
        assert!(rt;
            error_of(rt.alloc(), 0, ops)? == Some(*error),
            "row {place}"
        );
    }
    assert!(rt; error_of(rt.alloc(), 1, BACKWARDS)?.is_some());
    Ok(())
}
