//! Worked rows of matrices.

use super::{A, B, C, OPENING, Planned, Told, can_play, has, terms_of};
use history_core::{Band, Items, Kind, Op, PlayError, Term, Wish};
use matrix_core::{MatrixReport, MatrixSchedule, MatrixTerm, Stamp};
use matrix_play::play_matrix;
use std::alloc::{AllocError, Global};
use std::test::Fail;

/// The terms of a schedule, the places at which they begin in its report, and what that tells.
#[derive(Clone, Copy)]
struct Row {
    terms: &'static [Planned],
    firsts: &'static [usize],
    told: Told,
}

pub(crate) fn schedule(terms: Vec<MatrixTerm<Band>>) -> MatrixSchedule<Band> {
    MatrixSchedule {
        opening: OPENING,
        terms: Items::new(terms),
    }
}

pub(crate) fn play(
    alloc: Global,
    schedule: &MatrixSchedule<Band>,
) -> Option<Result<MatrixReport<Band>, PlayError>> {
    if can_play(schedule.terms.as_slice()) {
        Some(play_matrix(alloc, schedule))
    } else {
        None
    }
}

/// Whether the terms begin at these places, and have the limits that were planned.
fn has_terms(terms: &[Term], firsts: &[usize], planned: &[Planned]) -> bool {
    let mut same = terms.len() == firsts.len();
    for (told, first) in terms.iter().zip(firsts) {
        same = same & (told.first == *first);
    }
    for (told, planned) in terms.iter().zip(planned) {
        same = same & (told.limit == planned.limit);
    }
    same
}

/// Whether the report has these operations with these stamps, and this order of them, which is lawful.
pub(crate) fn tells(
    report: &MatrixReport<Band>,
    ops: &[Op<Band>],
    stamps: &[Option<Stamp>],
    order: &[usize],
) -> bool {
    has(&report.history, ops, order)
        && report.stamps.as_slice() == stamps
        && report.order.as_slice() == order
}

/// Whether the report of the schedule is that of the row.
fn is_told(alloc: Global, schedule: &MatrixSchedule<Band>, row: &Row) -> bool {
    match play(alloc, schedule) {
        Some(Ok(report)) => {
            has_terms(report.history.terms.as_slice(), row.firsts, row.terms)
                && tells(&report, row.told.ops, row.told.stamps, row.told.order)
        }
        _ => false,
    }
}

fn is_played(alloc: Global, row: &Row) -> Result<bool, AllocError> {
    Ok(is_told(alloc, &schedule(terms_of(alloc, row.terms)?), row))
}

const ROWS: &[Row] = &[
    // two writers and a reader
    Row {
        terms: &[Planned {
            limit: 9,
            plans: &[&[Wish::Write(A), Wish::Read], &[Wish::Write(B)]],
            runs: &[(0, 1), (1, 1), (0, 1), (1, 1), (0, 2)],
        }],
        firsts: &[0],
        told: Told {
            ops: &[
                op!(Write, 0, 0, Some(2), Some(A)),
                op!(Write, 1, 1, Some(3), Some(B)),
                op!(Read, 0, 4, Some(5), Some(B)),
            ],
            stamps: &[stamp!(1, 0), stamp!(1, 1), stamp!(1, 1)],
            order: &[0, 1, 2],
        },
    },
    // an unfinished write that one process has read, and handed on
    Row {
        terms: &[Planned {
            limit: 9,
            plans: &[&[Wish::Write(A)], &[Wish::Read], &[Wish::Read]],
            runs: &[(0, 3), (1, 4), (2, 4)],
        }],
        firsts: &[0],
        told: Told {
            ops: &[
                op!(Write, 0, 0, None, Some(A)),
                op!(Read, 1, 3, Some(6), Some(A)),
                op!(Read, 2, 7, Some(10), Some(A)),
            ],
            stamps: &[stamp!(1, 0), stamp!(1, 0), stamp!(1, 0)],
            order: &[0, 1, 2],
        },
    },
    // a write refused at the limit
    Row {
        terms: &[Planned {
            limit: 1,
            plans: &[&[Wish::Write(A)], &[Wish::Write(B)]],
            runs: &[(0, 2), (1, 2)],
        }],
        firsts: &[0],
        told: Told {
            ops: &[
                op!(Write, 0, 0, Some(1), Some(A)),
                op!(Refused, 1, 2, Some(3), Some(A)),
            ],
            stamps: &[stamp!(1, 0), stamp!(1, 0)],
            order: &[0, 1],
        },
    },
    // an unfinished read
    Row {
        terms: &[Planned {
            limit: 9,
            plans: &[&[Wish::Read], &[]],
            runs: &[(0, 1)],
        }],
        firsts: &[0],
        told: Told {
            ops: &[op!(Read, 0, 0, None, None)],
            stamps: &[stamp!(0, 0)],
            order: &[],
        },
    },
    // a read that met its cell before the write that precedes its end
    Row {
        terms: &[Planned {
            limit: 9,
            plans: &[&[Wish::Read], &[Wish::Write(B)]],
            runs: &[(1, 1), (0, 1), (1, 1), (0, 1)],
        }],
        firsts: &[0],
        told: Told {
            ops: &[
                op!(Write, 1, 0, Some(2), Some(B)),
                op!(Read, 0, 1, Some(3), Some(OPENING)),
            ],
            stamps: &[stamp!(1, 1), stamp!(0, 0)],
            order: &[1, 0],
        },
    },
    // two terms
    Row {
        terms: &[
            Planned {
                limit: 1,
                plans: &[&[Wish::Write(A)], &[]],
                runs: &[(0, 2)],
            },
            Planned {
                limit: 1,
                plans: &[&[], &[Wish::Write(B)]],
                runs: &[(1, 2)],
            },
        ],
        firsts: &[0, 1],
        told: Told {
            ops: &[
                op!(Write, 0, 0, Some(1), Some(A)),
                op!(Write, 1, 2, Some(3), Some(B)),
            ],
            stamps: &[stamp!(1, 0), stamp!(1, 1)],
            order: &[0, 1],
        },
    },
    // a later term opens with the record of the first, at a new tag; its limit counts its own writes
    Row {
        terms: &[
            Planned {
                limit: 1,
                plans: &[&[Wish::Write(A)], &[]],
                runs: &[(0, 2)],
            },
            Planned {
                limit: 1,
                plans: &[&[Wish::Read], &[Wish::Write(B)], &[Wish::Write(C)]],
                runs: &[(0, 4), (1, 4), (2, 4)],
            },
        ],
        firsts: &[0, 1],
        told: Told {
            ops: &[
                op!(Write, 0, 0, Some(1), Some(A)),
                op!(Read, 0, 2, Some(5), Some(A)),
                op!(Write, 1, 6, Some(9), Some(B)),
                op!(Refused, 2, 10, Some(13), Some(B)),
            ],
            stamps: &[stamp!(1, 0), stamp!(0, 0), stamp!(1, 1), stamp!(1, 1)],
            order: &[0, 1, 2, 3],
        },
    },
    // a reader that doesn't hand on would let a later read miss what an earlier one saw
    Row {
        terms: &[Planned {
            limit: 1,
            plans: &[
                &[Wish::Write(A)],
                &[Wish::Read],
                &[Wish::Write(B), Wish::Read],
            ],
            runs: &[(2, 3), (0, 4), (1, 4), (2, 3)],
        }],
        firsts: &[0],
        told: Told {
            ops: &[
                op!(Write, 2, 0, Some(11), Some(B)),
                op!(Refused, 0, 3, Some(6), Some(B)),
                op!(Read, 1, 7, Some(10), Some(B)),
                op!(Read, 2, 12, None, None),
            ],
            stamps: &[stamp!(1, 2), stamp!(1, 2), stamp!(1, 2), stamp!(1, 2)],
            order: &[0, 1, 2],
        },
    },
    // the tag of a write is its own last one plus one, or more
    Row {
        terms: &[Planned {
            limit: 9,
            plans: &[&[Wish::Write(A), Wish::Write(B)], &[Wish::Write(C)]],
            runs: &[(1, 2), (0, 1)],
        }],
        firsts: &[0],
        told: Told {
            ops: &[
                op!(Write, 1, 0, Some(1), Some(C)),
                op!(Write, 0, 2, None, Some(A)),
            ],
            stamps: &[stamp!(1, 1), stamp!(2, 0)],
            order: &[0, 1],
        },
    },
    // the last tag of a term is no refusal
    Row {
        terms: &[Planned {
            limit: 1,
            plans: &[&[Wish::Write(A)], &[]],
            runs: &[(0, 2)],
        }],
        firsts: &[0],
        told: Told {
            ops: &[op!(Write, 0, 0, Some(1), Some(A))],
            stamps: &[stamp!(1, 0)],
            order: &[0],
        },
    },
    // an unfinished write that a refused one has met
    Row {
        terms: &[Planned {
            limit: 1,
            plans: &[&[Wish::Write(A)], &[Wish::Write(B)], &[]],
            runs: &[(0, 3), (1, 4)],
        }],
        firsts: &[0],
        told: Told {
            ops: &[
                op!(Write, 0, 0, None, Some(A)),
                op!(Refused, 1, 3, Some(6), Some(A)),
            ],
            stamps: &[stamp!(1, 0), stamp!(1, 0)],
            order: &[0, 1],
        },
    },
];

#[test]
fn plays_rows(rt: HostRuntime) -> Result<(), Fail> {
    for (place, row) in ROWS.iter().enumerate() {
        assert!(rt; is_played(rt.alloc(), row)?, "row {place}");
    }
    Ok(())
}

/// The position of the first step for which no operation is left, if there is one.
fn stop_of(alloc: Global, planned: &[Planned]) -> Result<Option<PlayError>, AllocError> {
    Ok(match play(alloc, &schedule(terms_of(alloc, planned)?)) {
        Some(Err(e)) => Some(e),
        _ => None,
    })
}

const ONE_STEP: &[Planned] = &[Planned {
    limit: 9,
    plans: &[&[Wish::Read], &[]],
    runs: &[(1, 1)],
}];

/// Positions go on through terms.
const ONE_STEP_MORE: &[Planned] = &[
    Planned {
        limit: 1,
        plans: &[&[Wish::Write(A)], &[]],
        runs: &[(0, 2)],
    },
    Planned {
        limit: 1,
        plans: &[&[Wish::Read], &[Wish::Write(B)], &[Wish::Write(C)]],
        runs: &[(0, 5)],
    },
];

#[test]
fn steps_without_an_operation(rt: HostRuntime) -> Result<(), Fail> {
    for (planned, position) in [(ONE_STEP, 0), (ONE_STEP_MORE, 6)] {
        let stop = Some(PlayError::TooManySteps { position });
        assert!(rt; stop_of(rt.alloc(), planned)? == stop, "{position}");
    }
    Ok(())
}
