//! Worked rows of composed boards.

use super::{A, B, C, OPENING, Planned, Told, can_play, has, terms_of};
use composed_play::play_board;
use history_core::{Band, Items, Kind, Op, PlayError, Wish};
use matrix_core::{BoardReport, BoardSchedule, MatrixTerm, Stamp};
use std::alloc::{AllocError, Global};
use std::test::Fail;

const NOISE: Band = Band {
    lo: 9,
    now: 8,
    hi: 7,
};

/// The terms of a schedule, what its report tells, and the slots of each operation.
#[derive(Clone, Copy)]
struct Row {
    terms: &'static [Planned],
    told: Told,
    slots: &'static [&'static [Option<u8>]],
}

pub(crate) fn board(terms: Vec<MatrixTerm<Band>>) -> BoardSchedule<Band> {
    BoardSchedule {
        opening: OPENING,
        noise: NOISE,
        terms: Items::new(terms),
    }
}

pub(crate) fn play(
    alloc: Global,
    schedule: &BoardSchedule<Band>,
) -> Option<Result<BoardReport<Band>, PlayError>> {
    if can_play(schedule.terms.as_slice()) {
        Some(play_board(alloc, schedule))
    } else {
        None
    }
}

/// Whether the rows of slots are these.
fn are_slots(rows: &[Items<Option<u8>>], slots: &[&[Option<u8>]]) -> bool {
    let mut same = rows.len() == slots.len();
    for (row, expected) in rows.iter().zip(slots) {
        same = same & (row.as_slice() == *expected);
    }
    same
}

/// Whether the report has these operations with these stamps, and this order of them, which is lawful.
pub(crate) fn tells(
    report: &BoardReport<Band>,
    ops: &[Op<Band>],
    stamps: &[Option<Stamp>],
    order: &[usize],
) -> bool {
    has(&report.history, ops, order)
        && report.stamps.as_slice() == stamps
        && report.order.as_slice() == order
}

/// Whether the report of the schedule is that of the row.
fn is_told(alloc: Global, schedule: &BoardSchedule<Band>, row: &Row) -> bool {
    match play(alloc, schedule) {
        Some(Ok(report)) => {
            tells(&report, row.told.ops, row.told.stamps, row.told.order)
                && are_slots(report.slots.as_slice(), row.slots)
        }
        _ => false,
    }
}

fn is_played(alloc: Global, row: &Row) -> Result<bool, AllocError> {
    Ok(is_told(alloc, &board(terms_of(alloc, row.terms)?), row))
}

const ROWS: &[Row] = &[
    // a write and then a read
    Row {
        terms: &[Planned {
            limit: 9,
            plans: &[&[Wish::Write(A)], &[Wish::Read]],
            runs: &[(0, 10), (1, 10)],
        }],
        told: Told {
            ops: &[
                op!(Write, 0, 0, Some(9), Some(A)),
                op!(Read, 1, 10, Some(19), Some(A)),
            ],
            stamps: &[stamp!(1, 0), stamp!(1, 0)],
            order: &[0, 1],
        },
        slots: &[&[Some(0), Some(3)], &[Some(3), Some(3)]],
    },
    // the write lacks its last event, so the reader still takes the opening
    Row {
        terms: &[Planned {
            limit: 9,
            plans: &[&[Wish::Write(A)], &[Wish::Read]],
            runs: &[(0, 9), (1, 10)],
        }],
        told: Told {
            ops: &[
                op!(Write, 0, 0, None, Some(A)),
                op!(Read, 1, 9, Some(18), Some(OPENING)),
            ],
            stamps: &[stamp!(1, 0), stamp!(0, 0)],
            order: &[1, 0],
        },
        slots: &[&[Some(0), Some(3)], &[Some(0), Some(3)]],
    },
    // process 1 reads cell (0, 1) while B is half written to slot 2 of it, and takes A from slot 3
    Row {
        terms: &[Planned {
            limit: 9,
            plans: &[&[Wish::Write(A), Wish::Write(B)], &[Wish::Read]],
            runs: &[(0, 17), (1, 5), (0, 3), (1, 5)],
        }],
        told: Told {
            ops: &[
                op!(Write, 0, 0, Some(9), Some(A)),
                op!(Write, 0, 10, Some(24), Some(B)),
                op!(Read, 1, 17, Some(29), Some(A)),
            ],
            stamps: &[stamp!(1, 0), stamp!(2, 0), stamp!(1, 0)],
            order: &[0, 2, 1],
        },
        slots: &[
            &[Some(0), Some(3)],
            &[Some(0), Some(2)],
            &[Some(3), Some(3)],
        ],
    },
    // within the column
    Row {
        terms: &[Planned {
            limit: 9,
            plans: &[&[Wish::Write(A)], &[Wish::Read]],
            runs: &[(0, 4)],
        }],
        told: Told {
            ops: &[op!(Write, 0, 0, None, Some(A))],
            stamps: &[None],
            order: &[],
        },
        slots: &[&[Some(0), None]],
    },
    // the second term opens with A at 0.0, on new cells; its last write is refused
    Row {
        terms: &[
            Planned {
                limit: 1,
                plans: &[&[Wish::Write(A)], &[]],
                runs: &[(0, 10)],
            },
            Planned {
                limit: 1,
                plans: &[&[Wish::Read], &[Wish::Write(B)], &[Wish::Write(C)]],
                runs: &[(0, 20), (1, 20), (2, 20)],
            },
        ],
        told: Told {
            ops: &[
                op!(Write, 0, 0, Some(9), Some(A)),
                op!(Read, 0, 10, Some(29), Some(A)),
                op!(Write, 1, 30, Some(49), Some(B)),
                op!(Refused, 2, 50, Some(69), Some(B)),
            ],
            stamps: &[stamp!(1, 0), stamp!(0, 0), stamp!(1, 1), stamp!(1, 1)],
            order: &[0, 1, 2, 3],
        },
        slots: &[
            &[Some(0), Some(3)],
            &[Some(0), Some(0), Some(3), Some(3)],
            &[Some(3), Some(0), Some(3), Some(3)],
            &[Some(3), Some(3), Some(3), Some(3)],
        ],
    },
];

#[test]
fn plays_rows(rt: HostRuntime) -> Result<(), Fail> {
    for (place, row) in ROWS.iter().enumerate() {
        assert!(rt; is_played(rt.alloc(), row)?, "row {place}");
    }
    Ok(())
}

const ONE_STEP_TOO_MANY: &[Planned] = &[Planned {
    limit: 9,
    plans: &[&[Wish::Write(A)], &[Wish::Read]],
    runs: &[(0, 11)],
}];

fn is_stopped(alloc: Global) -> Result<bool, AllocError> {
    let stop = PlayError::TooManySteps { position: 10 };
    Ok(
        match play(alloc, &board(terms_of(alloc, ONE_STEP_TOO_MANY)?)) {
            Some(Err(e)) => e == stop,
            _ => false,
        },
    )
}

#[test]
fn one_step_too_many(rt: HostRuntime) -> Result<(), Fail> {
    assert!(rt; is_stopped(rt.alloc())?);
    Ok(())
}
