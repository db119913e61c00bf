//! Matrices and boards at each size, at the limits of a document, and with many operations.

use super::boards::{self, board};
use super::matrices::{self, schedule};
use super::{A, B, steps_of};
use history_core::{Band, Items, Kind, MAX_LIMIT, Op, Wish};
use matrix_core::{BoardSchedule, MatrixSchedule, MatrixTerm, Stamp};
use std::alloc::{AllocError, Global};
use std::test::Fail;

/// The plans of n processes, of which the first writes and each other one reads.
fn one_writer(alloc: Global, n: usize) -> Result<Vec<Items<Wish<Band>>>, AllocError> {
    let mut plans = Vec::new(alloc);
    plans.push(Items::new(vec![in alloc; Wish::Write(A)]?))?;
    for _ in 1..n {
        plans.push(Items::new(vec![in alloc; Wish::Read]?))?;
    }
    Ok(plans)
}

/// A term in which the first of n processes writes and then the last one reads, each in so many
/// accesses for each other process.
fn first_and_last(
    alloc: Global,
    n: usize,
    accesses: usize,
) -> Result<Vec<MatrixTerm<Band>>, AllocError> {
    let last = n.saturating_sub(1);
    let each = last.saturating_mul(accesses);
    let plans = Items::new(one_writer(alloc, n)?);
    let steps = Items::new(steps_of(alloc, &[(0, each), (last, each)])?);
    Ok(vec![in alloc;
        MatrixTerm {
            limit: 9,
            plans,
            steps,
        },
    ]?)
}

/// The operations of such a term.
fn first_and_last_ops(n: usize, accesses: u64) -> [Op<Band>; 2] {
    let last = n.saturating_sub(1);
    let each = accesses.saturating_mul(last as u64);
    let ends = each.saturating_mul(2).saturating_sub(1);
    [
        op!(Write, 0, 0, Some(each.saturating_sub(1)), Some(A)),
        op!(Read, last, each, Some(ends), Some(A)),
    ]
}

const STAMPS: [Option<Stamp>; 2] = [stamp!(1, 0), stamp!(1, 0)];

fn is_matrix_of(alloc: Global, schedule: &MatrixSchedule<Band>, ops: &[Op<Band>]) -> bool {
    match matrices::play(alloc, schedule) {
        Some(Ok(report)) => matrices::tells(&report, ops, &STAMPS, &[0, 1]),
        _ => false,
    }
}

fn is_board_of(alloc: Global, schedule: &BoardSchedule<Band>, ops: &[Op<Band>]) -> bool {
    match boards::play(alloc, schedule) {
        Some(Ok(report)) => boards::tells(&report, ops, &STAMPS, &[0, 1]),
        _ => false,
    }
}

/// Whether a matrix and a board of n processes, of which the first writes and then the last one reads,
/// give this write and this read.
fn plays(alloc: Global, n: usize) -> Result<bool, AllocError> {
    let matrix = schedule(first_and_last(alloc, n, 2)?);
    let board = board(first_and_last(alloc, n, 10)?);
    Ok(
        is_matrix_of(alloc, &matrix, &first_and_last_ops(n, 2))
            && is_board_of(alloc, &board, &first_and_last_ops(n, 10)),
    )
}

#[test]
fn at_each_size(rt: HostRuntime) -> Result<(), Fail> {
    for n in 2..17 {
        assert!(rt; plays(rt.alloc(), n)?, "{n} processes");
    }
    Ok(())
}

/// The plans of n processes, of which the last one makes so many writes.
fn last_writes(
    alloc: Global,
    n: usize,
    writes: usize,
) -> Result<Vec<Items<Wish<Band>>>, AllocError> {
    let mut plans = Vec::new(alloc);
    for _ in 1..n {
        plans.push(Items::new(Vec::new(alloc)))?;
    }
    plans.push(Items::new(vec![in alloc; Wish::Write(B); writes]?))?;
    Ok(plans)
}

/// A term of 6,250 steps of the last of n processes, which makes so many writes.
fn term_of_writes(
    alloc: Global,
    limit: u64,
    n: usize,
    writes: usize,
) -> Result<MatrixTerm<Band>, AllocError> {
    let plans = Items::new(last_writes(alloc, n, writes)?);
    Ok(MatrixTerm {
        limit,
        plans,
        steps: Items::new(vec![in alloc; n.saturating_sub(1); 6_250]?),
    })
}

fn sixteen_terms(
    alloc: Global,
    limit: u64,
    n: usize,
    writes: usize,
) -> Result<Vec<MatrixTerm<Band>>, AllocError> {
    let mut terms = Vec::new(alloc);
    for _ in 0..16 {
        terms.push(term_of_writes(alloc, limit, n, writes)?)?;
    }
    Ok(terms)
}

/// Whether there are so many operations, of which the last is this one with this stamp.
fn end_so(
    ops: &[Op<Band>],
    stamps: &[Option<Stamp>],
    count: usize,
    last: Op<Band>,
    stamp: Option<Stamp>,
) -> bool {
    ops.len() == count && ops.last() == Some(&last) && stamps.last() == Some(&stamp)
}

/// Whether a matrix gives so many terms and operations, of which the last is this one with this stamp.
fn is_matrix_to(
    alloc: Global,
    schedule: &MatrixSchedule<Band>,
    terms: usize,
    count: usize,
    last: Op<Band>,
    stamp: Option<Stamp>,
) -> bool {
    match matrices::play(alloc, schedule) {
        Some(Ok(report)) => {
            let history = &report.history;
            history.terms.as_slice().len() == terms
                && end_so(
                    history.ops.as_slice(),
                    report.stamps.as_slice(),
                    count,
                    last,
                    stamp,
                )
        }
        _ => false,
    }
}

/// 16 terms of 16 processes, in each of which process 15 makes 208 writes and one more that is cut off in its tenth
/// step: 3,344 operations and 100,000 steps.
fn is_matrix_at_the_limits(alloc: Global) -> Result<bool, AllocError> {
    let schedule = schedule(sixteen_terms(alloc, MAX_LIMIT, 16, 209)?);
    let last = op!(Write, 15, 99_990, None, Some(B));
    Ok(is_matrix_to(alloc, &schedule, 16, 3_344, last, None))
}

/// 5,000 times two steps of each of two processes, one after the other.
fn turns(alloc: Global) -> Result<Vec<usize>, AllocError> {
    let mut steps = Vec::new(alloc);
    for _ in 0..5_000 {
        for process in [0, 0, 1, 1] {
            steps.push(process)?;
        }
    }
    Ok(steps)
}

/// 5,000 writes and 5,000 reads of two processes.
fn writes_and_reads(alloc: Global) -> Result<Vec<Items<Wish<Band>>>, AllocError> {
    let mut plans = Vec::new(alloc);
    plans.push(Items::new(vec![in alloc; Wish::Write(B); 5_000]?))?;
    plans.push(Items::new(vec![in alloc; Wish::Read; 5_000]?))?;
    Ok(plans)
}

/// 5,000 writes and 5,000 reads by turns, of two processes: 10,000 operations.
fn is_matrix_of_ten_thousand(alloc: Global) -> Result<bool, AllocError> {
    let plans = Items::new(writes_and_reads(alloc)?);
    let steps = Items::new(turns(alloc)?);
    let schedule = schedule(vec![in alloc;
        MatrixTerm {
            limit: MAX_LIMIT,
            plans,
            steps,
        },
    ]?);
    let last = op!(Read, 1, 19_998, Some(19_999), Some(B));
    Ok(is_matrix_to(alloc, &schedule, 1, 10_000, last, stamp!(5_000, 0)))
}

fn is_board_to(
    alloc: Global,
    schedule: &BoardSchedule<Band>,
    count: usize,
    last: Op<Band>,
    stamp: Option<Stamp>,
) -> bool {
    match boards::play(alloc, schedule) {
        Some(Ok(report)) => {
            report.order.as_slice().len() == count
                && end_so(
                    report.history.ops.as_slice(),
                    report.stamps.as_slice(),
                    count,
                    last,
                    stamp,
                )
        }
        _ => false,
    }
}

/// 16 terms of 625 writes by turns, of two processes: 10,000 operations and 100,000 steps.
fn is_board_at_the_limits(alloc: Global) -> Result<bool, AllocError> {
    let schedule = board(sixteen_terms(alloc, 1_000, 2, 625)?);
    let last = op!(Write, 1, 99_990, Some(99_999), Some(B));
    Ok(is_board_to(alloc, &schedule, 10_000, last, stamp!(625, 1)))
}

#[test]
fn at_the_limits(rt: HostRuntime) -> Result<(), Fail> {
    assert!(rt; is_matrix_at_the_limits(rt.alloc())?, "a matrix");
    assert!(rt; is_board_at_the_limits(rt.alloc())?, "a board");
    assert!(rt;
        is_matrix_of_ten_thousand(rt.alloc())?,
        "a matrix of two processes"
    );
    Ok(())
}
