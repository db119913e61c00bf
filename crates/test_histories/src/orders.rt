//! Worked orders and their verdicts. Nothing here is taken from the program's own answers.

use history_check::check_order;
use history_core::{Band, History, Items, Kind, MAX_LIMIT, Op, Term, Verdict};
use history_explain::{Break, first_break, points};
use std::alloc::{AllocError, Global};
use std::test::Fail;

const NONE: Band = Band {
    lo: 0,
    now: 0,
    hi: 0,
};

const A: Band = Band {
    lo: 1,
    now: 1,
    hi: 1,
};

const B: Band = Band {
    lo: 2,
    now: 2,
    hi: 2,
};

/// An operation of a row that has ended.
macro_rules! finished {
    ($who:expr, $kind:ident, $starts:expr, $ends:expr, $item:expr) => {
        Op {
            who: $who,
            kind: Kind::$kind,
            starts: $starts,
            ends: Some($ends),
            item: Some($item),
        }
    };
}

/// An operation of a row that hasn't ended.
macro_rules! unfinished {
    ($who:expr, $kind:ident, $starts:expr, $item:expr) => {
        Op {
            who: $who,
            kind: Kind::$kind,
            starts: $starts,
            ends: None,
            item: $item,
        }
    };
}

/// A term of a row.
macro_rules! term {
    ($first:expr, $limit:expr) => {
        Term {
            first: $first,
            limit: $limit,
        }
    };
}

fn history(alloc: Global, terms: &[Term], ops: &[Op<Band>]) -> Result<History<Band>, AllocError> {
    let terms = Items::new(Vec::from_slice(alloc, terms)?);
    Ok(History {
        opening: NONE,
        terms,
        ops: Items::new(Vec::from_slice(alloc, ops)?),
    })
}

/// Terms, operations, an order of them, and the verdict on it.
type Row<'a> = (&'a [Term], &'a [Op<Band>], &'a [usize], Verdict);

fn is_judged(alloc: Global, row: &Row) -> Result<bool, AllocError> {
    let (terms, ops, order, verdict) = *row;
    Ok(check_order(&history(alloc, terms, ops)?, order) == verdict)
}

const NINE: &[Term] = &[term!(0, 9)];

const WRITE: Op<Band> = finished!(0, Write, 0, 4, A);

const READ: Op<Band> = finished!(1, Read, 5, 9, A);

const BESIDE: Op<Band> = finished!(1, Read, 4, 9, NONE);

const OPEN_READ: Op<Band> = unfinished!(1, Read, 5, Some(A));

const STALE: Op<Band> = finished!(1, Read, 5, 9, NONE);

const ENDS: &[Op<Band>] = &[
    finished!(0, Write, 0, 1, A),
    finished!(1, Read, 0, 9, B),
    finished!(2, Write, 5, 6, B),
];

const OPEN_WRITE: Op<Band> = unfinished!(0, Write, 0, Some(A));

const OPEN_REFUSED: Op<Band> = unfinished!(0, Refused, 0, Some(NONE));

const BACKWARDS: Op<Band> = finished!(0, Write, 4, 0, A);

const SECOND: Op<Band> = finished!(0, Write, 2, 6, B);

const BARE: Op<Band> = unfinished!(0, Write, 0, None);

const REFUSED_ALONE: Op<Band> = finished!(0, Refused, 0, 1, NONE);

const ONE_REFUSED: &[Op<Band>] = &[finished!(0, Write, 0, 1, A), finished!(1, Refused, 2, 3, A)];

const VERDICTS: &[Row<'static>] = &[
    // each rule
    (NINE, &[], &[], Verdict::Lawful),
    (NINE, &[WRITE, READ], &[0, 1], Verdict::Lawful),
    (NINE, &[WRITE, READ], &[1, 0], Verdict::Precedence),
    (NINE, &[WRITE, BESIDE], &[1, 0], Verdict::Lawful),
    (NINE, &[WRITE, READ], &[0, 0], Verdict::Listing),
    (NINE, &[WRITE, OPEN_READ], &[0, 1], Verdict::Listing),
    (NINE, &[WRITE, OPEN_READ], &[0], Verdict::Lawful),
    (NINE, &[WRITE, STALE], &[0, 1], Verdict::Reading),
    (NINE, ENDS, &[2, 1, 0], Verdict::Precedence),
    // what is listed
    (NINE, &[WRITE, READ], &[0], Verdict::Listing),
    (NINE, &[WRITE, READ], &[0, 1, 2], Verdict::Listing),
    (NINE, &[OPEN_WRITE], &[], Verdict::Lawful),
    (NINE, &[OPEN_WRITE], &[0], Verdict::Lawful),
    (NINE, &[OPEN_WRITE], &[0, 0], Verdict::Listing),
    (NINE, &[OPEN_REFUSED], &[0], Verdict::Listing),
    (NINE, &[OPEN_REFUSED], &[], Verdict::Lawful),
    // nothing else is asked
    (NINE, &[BACKWARDS], &[0], Verdict::Lawful),
    (NINE, &[WRITE, SECOND], &[1, 0], Verdict::Lawful),
    (NINE, &[BARE], &[0], Verdict::Reading),
    (NINE, &[BARE], &[], Verdict::Lawful),
    // limits and terms
    (&[term!(0, 1)], &[REFUSED_ALONE], &[0], Verdict::Limit),
    (&[term!(0, 1)], ONE_REFUSED, &[0, 1], Verdict::Lawful),
    (&[term!(0, 2)], ONE_REFUSED, &[0, 1], Verdict::Limit),
    (
        &[term!(0, 1), term!(1, 1)],
        ONE_REFUSED,
        &[0, 1],
        Verdict::Limit,
    ),
    // the last of the list whose first is not above the place, wherever the others stand
    (
        &[term!(1, 1), term!(0, 1)],
        ONE_REFUSED,
        &[0, 1],
        Verdict::Lawful,
    ),
    // of two terms with one first the later one
    (
        &[term!(0, 2), term!(0, 1)],
        ONE_REFUSED,
        &[0, 1],
        Verdict::Lawful,
    ),
    (
        &[term!(0, 1), term!(0, 2)],
        ONE_REFUSED,
        &[0, 1],
        Verdict::Limit,
    ),
    // no term
    (&[term!(2, 2)], ONE_REFUSED, &[0, 1], Verdict::Lawful),
    (&[], ONE_REFUSED, &[0, 1], Verdict::Lawful),
];

#[test]
fn verdicts(rt: HostRuntime) -> Result<(), Fail> {
    for (place, row) in VERDICTS.iter().enumerate() {
        assert!(rt; is_judged(rt.alloc(), row)?, "row {place}");
    }
    Ok(())
}

/// Ten thousand writes, one after the other, and the order that lists them so.
fn many(alloc: Global) -> Result<(Vec<Op<Band>>, Vec<usize>), AllocError> {
    let mut ops = Vec::new(alloc);
    let mut order = Vec::new(alloc);
    for place in 0..10_000 {
        let starts = 2 * place as u64;
        ops.push(finished!(place % 16, Write, starts, starts + 1, A))?;
        order.push(place)?;
    }
    Ok((ops, order))
}

/// Whether the order is no listing where it has this place once more.
fn lists_again(
    alloc: Global,
    ops: &[Op<Band>],
    order: &mut Vec<usize>,
    again: usize,
) -> Result<bool, AllocError> {
    order.push(again)?;
    let judged = is_judged(alloc, &(NINE, ops, order, Verdict::Listing));
    order.pop();
    judged
}

/// Whether the order is unlawful the other way round, and without its last place.
fn is_needed(alloc: Global, ops: &[Op<Band>], order: &mut Vec<usize>) -> Result<bool, AllocError> {
    order.reverse();
    let backwards = is_judged(alloc, &(NINE, ops, order, Verdict::Precedence))?;
    order.reverse();
    order.pop();
    Ok(backwards && is_judged(alloc, &(NINE, ops, order, Verdict::Listing))?)
}

#[test]
fn ten_thousand_operations(rt: HostRuntime) -> Result<(), Fail> {
    let (ops, mut order) = many(rt.alloc())?;
    assert!(rt; is_judged(rt.alloc(), &(NINE, &ops, &order, Verdict::Lawful))?);
    for again in [0, 4095, 4096, 8191, 8192, 9999] {
        assert!(rt;
            lists_again(rt.alloc(), &ops, &mut order, again)?,
            "{again}"
        );
    }
    assert!(rt; is_needed(rt.alloc(), &ops, &mut order)?);
    Ok(())
}

const BANDS: &[(u64, u64, u64, bool)] = &[
    (0, 0, 0, true),
    (1, 1, 2, true),
    (1, 2, 2, true),
    (1, 0, 2, false),
    (1, 3, 2, false),
    (3, 2, 1, false),
    (0, u64::MAX, u64::MAX, true),
];

#[test]
fn bands(rt: HostRuntime) {
    for (lo, now, hi, fits) in BANDS {
        let band = Band {
            lo: *lo,
            now: *now,
            hi: *hi,
        };
        assert!(rt; band.fits() == *fits, "{lo}, {now}, {hi}");
    }
    assert!(rt; MAX_LIMIT == u64::MAX - 1);
}

fn are_kept(alloc: Global, bands: &[Band]) -> Result<bool, AllocError> {
    let items = Items::new(Vec::from_slice(alloc, bands)?);
    let kept = items.as_slice() == bands;
    Ok(kept && items.into_vec().as_slice() == bands)
}

#[test]
fn items(rt: HostRuntime) -> Result<(), Fail> {
    assert!(rt; are_kept(rt.alloc(), &[A, B])?);
    Ok(())
}

const REFUSED: Op<Band> = finished!(0, Refused, 10, 11, A);

/// Operations, an order of them, the limit of their term, and the first rule that the order breaks.
type Broken = (&'static [Op<Band>], &'static [usize], u64, Option<Break>);

const BREAKS: &[Broken] = &[
    (&[WRITE, READ], &[0, 1], 1, None),
    (
        &[WRITE, READ],
        &[1, 0],
        1,
        Some(Break::Precedence {
            earlier: 0,
            entry: 1,
        }),
    ),
    (
        ENDS,
        &[2, 1, 0],
        1,
        Some(Break::Precedence {
            earlier: 0,
            entry: 2,
        }),
    ),
    (
        &[WRITE, READ],
        &[0, 2],
        1,
        Some(Break::NoPlace { entry: 1 }),
    ),
    (
        &[WRITE, READ],
        &[1, 0, 0],
        1,
        Some(Break::Times { place: 0, times: 2 }),
    ),
    (
        &[WRITE, READ],
        &[0],
        1,
        Some(Break::Times { place: 1, times: 0 }),
    ),
    (
        &[WRITE, STALE],
        &[0, 1],
        1,
        Some(Break::Reading {
            entry: 1,
            write: Some(0),
        }),
    ),
    (&[BARE], &[0], 1, Some(Break::NoItem { entry: 0 })),
    (
        &[READ],
        &[0],
        1,
        Some(Break::Reading {
            entry: 0,
            write: None,
        }),
    ),
    (
        &[WRITE, REFUSED],
        &[0, 1],
        2,
        Some(Break::Limit {
            entry: 1,
            writes: 1,
        }),
    ),
];

fn is_broken(alloc: Global, row: &Broken) -> Result<bool, AllocError> {
    let (ops, order, limit, expected) = *row;
    Ok(first_break(&history(alloc, &[term!(0, limit)], ops)?, order) == expected)
}

#[test]
fn breaks(rt: HostRuntime) -> Result<(), Fail> {
    for (place, row) in BREAKS.iter().enumerate() {
        assert!(rt; is_broken(rt.alloc(), row)?, "row {place}");
    }
    Ok(())
}

/// Operations, an order of them, and its earliest points, or none where there are no such points.
type Timed = (
    &'static [Op<Band>],
    &'static [usize],
    Option<&'static [u64]>,
);

const TIMED: &[Timed] = &[
    (
        &[
            finished!(0, Write, 3, 8, A),
            finished!(1, Read, 1, 9, A),
            finished!(2, Write, 6, 7, B),
        ],
        &[0, 1, 2],
        Some(&[3, 3, 6]),
    ),
    (
        &[finished!(0, Write, 8, 9, A), finished!(1, Read, 1, 7, A)],
        &[0, 1],
        None,
    ),
];

/// Whether the points are these.
fn are_points(found: Option<Items<u64>>, expected: Option<&[u64]>) -> bool {
    match (found, expected) {
        (Some(found), Some(points)) => found.as_slice() == points,
        (None, None) => true,
        _ => false,
    }
}

fn is_timed(alloc: Global, row: &Timed) -> Result<bool, AllocError> {
    let (ops, order, expected) = *row;
    let found = points(alloc, &history(alloc, NINE, ops)?, order)?;
    Ok(are_points(found, expected))
}

#[test]
fn earliest_points(rt: HostRuntime) -> Result<(), Fail> {
    for (place, row) in TIMED.iter().enumerate() {
        assert!(rt; is_timed(rt.alloc(), row)?, "row {place}");
    }
    Ok(())
}
