//! Schedules played, with the reports that were worked out by hand. The opening is 0, the noise 987, and
//! the writes store 1, 2 and 3.

use super::has;
use four_slot_core::{CellReport, CellSchedule, Turn};
use four_slot_play::play_cell;
use history_check::check_order;
use history_core::{History, Items, Kind, MAX_LIMIT, Op, PlayError, Term, Verdict};
use std::alloc::{AllocError, Global};
use std::test::Fail;

/// A schedule: its steps, of the letters `w` and `r`, its writes and the number of its reads. And its report: the
/// operations, their slots and their order.
#[derive(Clone, Copy)]
struct Row {
    steps: &'static str,
    writes: &'static [u64],
    reads: u64,
    ops: &'static [Op<u64>],
    slots: &'static [Option<u8>],
    order: &'static [usize],
}

fn turns(alloc: Global, steps: &str) -> Result<Vec<Turn>, AllocError> {
    let mut turns = Vec::new(alloc);
    for step in steps.bytes() {
        turns.push(if step == b'w' {
            Turn::Writer
        } else {
            Turn::Reader
        })?;
    }
    Ok(turns)
}

fn schedule(
    alloc: Global,
    steps: &str,
    writes: &[u64],
    reads: u64,
) -> Result<CellSchedule<u64>, AllocError> {
    let steps = Items::new(turns(alloc, steps)?);
    Ok(CellSchedule {
        opening: 0,
        noise: 987,
        steps,
        writes: Items::new(writes.to_vec(alloc)?),
        reads,
    })
}

/// Whether the history opens with 0 and is one term without a limit.
fn is_of_one_term(history: &History<u64>) -> bool {
    let terms = [Term {
        first: 0,
        limit: MAX_LIMIT,
    }];
    history.opening == 0 && history.terms.as_slice() == terms.as_slice()
}

/// Whether the report is that of the row, and its order is lawful.
fn is_told(report: &CellReport<u64>, row: &Row) -> bool {
    has(report, row.ops, row.slots, row.order)
        && is_of_one_term(&report.history)
        && check_order(&report.history, row.order) == Verdict::Lawful
}

fn is_played(alloc: Global, row: &Row) -> Result<bool, AllocError> {
    let schedule = schedule(alloc, row.steps, row.writes, row.reads)?;
    Ok(match play_cell(alloc, &schedule) {
        Ok(report) => is_told(&report, row),
        Err(_) => false,
    })
}

macro_rules! written {
    ($starts:expr, $ends:expr, $item:expr) => {
        Op {
            who: 0,
            kind: Kind::Write,
            starts: $starts,
            ends: $ends,
            item: Some($item),
        }
    };
}

macro_rules! answered {
    ($starts:expr, $ends:expr, $item:expr) => {
        Op {
            who: 1,
            kind: Kind::Read,
            starts: $starts,
            ends: $ends,
            item: $item,
        }
    };
}

const ROWS: &[Row] = &[
    // nothing to play
    Row {
        steps: "",
        writes: &[],
        reads: 0,
        ops: &[],
        slots: &[],
        order: &[],
    },
    // a read after a write
    Row {
        steps: "wwwwwrrrrr",
        writes: &[1],
        reads: 1,
        ops: &[written!(0, Some(4), 1), answered!(5, Some(9), Some(1))],
        slots: &[Some(3), Some(3)],
        order: &[0, 1],
    },
    // a read begun before the write
    Row {
        steps: "rwwwwwrrrr",
        writes: &[1],
        reads: 1,
        ops: &[answered!(0, Some(9), Some(0)), written!(1, Some(5), 1)],
        slots: &[Some(0), Some(3)],
        order: &[0, 1],
    },
    // a read of an unfinished write
    Row {
        steps: "wwwwwwwwwrrrrr",
        writes: &[1, 2],
        reads: 1,
        ops: &[
            written!(0, Some(4), 1),
            written!(5, None, 2),
            answered!(9, Some(13), Some(2)),
        ],
        slots: &[Some(3), Some(2), Some(2)],
        order: &[0, 1, 2],
    },
    // two slots of one pair
    Row {
        steps: "wwwwwwwrrrrwrww",
        writes: &[1, 2],
        reads: 1,
        ops: &[
            written!(0, Some(4), 1),
            written!(5, Some(14), 2),
            answered!(7, Some(12), Some(1)),
        ],
        slots: &[Some(3), Some(2), Some(3)],
        order: &[0, 2, 1],
    },
    // a stalled reader
    Row {
        steps: "wwwwwrrrrwwwwwwwwwwrrrrrr",
        writes: &[1, 2, 3],
        reads: 2,
        ops: &[
            written!(0, Some(4), 1),
            answered!(5, Some(19), Some(1)),
            written!(9, Some(13), 2),
            written!(14, Some(18), 3),
            answered!(20, Some(24), Some(3)),
        ],
        slots: &[Some(3), Some(3), Some(1), Some(0), Some(0)],
        order: &[0, 1, 2, 3, 4],
    },
    // a read between the stores of a write
    Row {
        steps: "wwwwwrrrrrwwwwrrrrrw",
        writes: &[1, 2],
        reads: 2,
        ops: &[
            written!(0, Some(4), 1),
            answered!(5, Some(9), Some(1)),
            written!(10, Some(19), 2),
            answered!(14, Some(18), Some(1)),
        ],
        slots: &[Some(3), Some(3), Some(1), Some(3)],
        order: &[0, 1, 3, 2],
    },
    // an unfinished read
    Row {
        steps: "wrr",
        writes: &[1],
        reads: 1,
        ops: &[written!(0, None, 1), answered!(1, None, None)],
        slots: &[Some(3), None],
        order: &[],
    },
    // a reader that skips R2 is met
    Row {
        steps: "wwwwwwwrrrrwwwww",
        writes: &[1, 2, 3],
        reads: 1,
        ops: &[
            written!(0, Some(4), 1),
            written!(5, Some(13), 2),
            answered!(7, None, None),
            written!(14, None, 3),
        ],
        slots: &[Some(3), Some(2), Some(3), Some(1)],
        order: &[0, 1],
    },
    // `latest` before the slot's bit is stale
    Row {
        steps: "wwwwwrrwwwwrrrrrrrr",
        writes: &[1, 2],
        reads: 2,
        ops: &[
            written!(0, Some(4), 1),
            answered!(5, Some(13), Some(1)),
            written!(7, None, 2),
            answered!(14, Some(18), Some(1)),
        ],
        slots: &[Some(3), Some(3), Some(1), Some(3)],
        order: &[0, 1, 3, 2],
    },
    // the current slot isn't filled
    Row {
        steps: "wwwwwwwrrrr",
        writes: &[1, 2],
        reads: 1,
        ops: &[
            written!(0, Some(4), 1),
            written!(5, None, 2),
            answered!(7, None, None),
        ],
        slots: &[Some(3), Some(2), Some(3)],
        order: &[0],
    },
];

#[test]
fn plays_rows(rt: HostRuntime) -> Result<(), Fail> {
    for (place, row) in ROWS.iter().enumerate() {
        assert!(rt; is_played(rt.alloc(), row)?, "row {place}");
    }
    Ok(())
}

fn is_stopped(alloc: Global) -> Result<bool, AllocError> {
    let schedule = schedule(alloc, "wwwwww", &[1], 0)?;
    Ok(match play_cell(alloc, &schedule) {
        Err(e) => e == PlayError::TooManySteps { position: 5 },
        Ok(_) => false,
    })
}

#[test]
fn step_without_an_operation(rt: HostRuntime) -> Result<(), Fail> {
    assert!(rt; is_stopped(rt.alloc())?);
    Ok(())
}
