//! What the steps of teams give.
ghost use Rattle.std.specs.Prelude.{IfOk};
ghost use Rattle.history_core.specs.Band.{fits};
ghost use Rattle.board_live.specs.Ends.{AllPasses};

use super::{A, B, C, OPENING, UNLAWFUL};
use board_live::{BoardError, Posted};
use board_teams::{Given, Step, Team};
use cell_contract::Family;
use history_core::Band;
use matrix_core::Stamp;
use std::alloc::Global;

/// Boards, each of which opens with the last record of the one before.
struct Row {
    shows: &'static str,
    terms: &'static [Term],
}

/// A board of so many processes, what each step on it gives, and the record that it ends with.
struct Term {
    n: usize,
    limit: u64,
    steps: &'static [(Step, Given)],
    last: Posted<Band>,
}

/// What a write gave. (A macro, so that the rows are constants.)
macro_rules! stamp {
    ($tag:expr, $writer:expr) => {
        Given::Stamp(Stamp {
            tag: $tag,
            writer: $writer,
        })
    };
}

/// A record of a board.
macro_rules! at {
    ($tag:expr, $writer:expr, $item:expr) => {
        Posted {
            stamp: Stamp {
                tag: $tag,
                writer: $writer,
            },
            item: $item,
        }
    };
}

/// What a step gave that answers with a record.
macro_rules! posted {
    ($tag:expr, $writer:expr, $item:expr) => {
        Given::Posted(at!($tag, $writer, $item))
    };
}

const ROWS: &[Row] = &[
    Row {
        shows: "three processes write and read",
        terms: &[Term {
            n: 3,
            limit: 9,
            steps: &[
                (Step::Write(1, B), stamp!(1, 1)),
                (Step::Read(0), posted!(1, 1, B)),
                (Step::Write(2, C), stamp!(2, 2)),
                (Step::Write(0, A), stamp!(3, 0)),
                (Step::Read(1), posted!(3, 0, A)),
            ],
            last: at!(3, 0, A),
        }],
    },
    Row {
        shows: "the tags of two processes end",
        terms: &[Term {
            n: 2,
            limit: 2,
            steps: &[
                (Step::Write(0, A), stamp!(1, 0)),
                (Step::Write(1, B), stamp!(2, 1)),
                (Step::Write(0, C), Given::Ended(at!(2, 1, B))),
                (Step::Own(0), posted!(2, 1, B)),
                (Step::Read(1), posted!(2, 1, B)),
            ],
            last: at!(2, 1, B),
        }],
    },
    Row {
        shows: "a record goes on by receipts, through one that reads nothing and to its own sender",
        terms: &[Term {
            n: 3,
            limit: 9,
            steps: &[
                (Step::Write(0, A), stamp!(1, 0)),
                (Step::PassOn(0, 1), posted!(1, 0, A)),
                (Step::Own(1), posted!(0, 0, OPENING)),
                (Step::PassOn(1, 2), posted!(0, 0, OPENING)),
                (Step::Read(2), posted!(1, 0, A)),
                (Step::PassOn(0, 0), posted!(1, 0, A)),
            ],
            last: at!(1, 0, A),
        }],
    },
    Row {
        shows: "the tags end with a record that was told",
        terms: &[Term {
            n: 2,
            limit: 1,
            steps: &[
                (Step::Write(0, A), stamp!(1, 0)),
                (Step::PassOn(0, 1), posted!(1, 0, A)),
                (Step::Write(1, B), Given::Ended(at!(1, 0, A))),
            ],
            last: at!(1, 0, A),
        }],
    },
    Row {
        shows: "a receipt that is dropped changes nothing, and no receipt is needed in one thread",
        terms: &[Term {
            n: 2,
            limit: 9,
            steps: &[
                (Step::Write(0, A), stamp!(1, 0)),
                (Step::DropReceipt(0), posted!(1, 0, A)),
                (Step::Read(1), posted!(1, 0, A)),
            ],
            last: at!(1, 0, A),
        }],
    },
    Row {
        shows: "a second board opens with what the first ended with, for as many processes as there may be",
        terms: &[
            Term {
                n: 2,
                limit: 1,
                steps: &[
                    (Step::Write(0, A), stamp!(1, 0)),
                    (Step::Write(1, B), Given::Ended(at!(1, 0, A))),
                ],
                last: at!(1, 0, A),
            },
            Term {
                n: 16,
                limit: 5,
                steps: &[
                    (Step::Read(15), posted!(0, 0, A)),
                    (Step::Write(15, B), stamp!(1, 15)),
                    (Step::Read(0), posted!(1, 15, B)),
                ],
                last: at!(1, 15, B),
            },
        ],
    },
];

/// A board that opens with this record, or with the opening where there is none before.
fn opened<F: Family<Posted<Band>>>(
    alloc: Global,
    term: &Term,
    before: Option<Posted<Band>>,
) -> Result<Team<F>, BoardError>
    ensures { IfOk result (λ t. AllPasses ⟦<F as Family<Posted<Band>>>⟧ fits t.board t.passes.items) }
{
    match before {
        Some(last) => Team::renew(alloc, term.n, term.limit, last),
        None => Team::new(alloc, term.n, term.limit, OPENING),
    }
}

/// Whether each step gives what it is to give.
fn steps_hold<F: Family<Posted<Band>>>(team: &mut Team<F>, steps: &[(Step, Given)]) -> bool
    requires { AllPasses ⟦<F as Family<Posted<Band>>>⟧ fits team.old.board team.old.passes.items }
    ensures { AllPasses ⟦<F as Family<Posted<Band>>>⟧ fits team.new.board team.new.passes.items }
{
    let mut all = true;
    for line in steps {
        let (step, given) = *line;
        all = all & (team.answer(step) == given);
        team.so_far();
    }
    all
}

fn holds<F: Family<Posted<Band>>>(alloc: Global, row: &Row) -> Result<bool, BoardError> {
    let mut all = true;
    let mut before = None;
    for term in row.terms {
        let mut team = opened::<F>(alloc, term, before)?;
        all = all & steps_hold(&mut team, term.steps);
        all = all & (team.so_far() == term.last);
        let last = team.finish();
        all = all & (last == term.last);
        before = Some(last);
    }
    Ok(all)
}

/// What `new` is asked for, and why it refuses.
struct Refusal {
    n: usize,
    limit: u64,
    opening: Band,
    error: Option<BoardError>,
}

macro_rules! refusal {
    ($n:expr, $limit:expr, $opening:expr, $error:expr) => {
        Refusal {
            n: $n,
            limit: $limit,
            opening: $opening,
            error: $error,
        }
    };
}

/// What `new` refuses, and in which order.
const REFUSALS: &[Refusal] = &[
    refusal!(1, 9, OPENING, Some(BoardError::Processes)),
    refusal!(17, 9, OPENING, Some(BoardError::Processes)),
    refusal!(1, 0, UNLAWFUL, Some(BoardError::Processes)),
    refusal!(17, u64::MAX, UNLAWFUL, Some(BoardError::Processes)),
    refusal!(2, 0, UNLAWFUL, Some(BoardError::Limit)),
    refusal!(2, u64::MAX, OPENING, Some(BoardError::Limit)),
    refusal!(2, 9, UNLAWFUL, Some(BoardError::Opening)),
    refusal!(2, 1, OPENING, None),
    refusal!(16, u64::MAX - 1, OPENING, None),
];

fn is_refused<F: Family<Posted<Band>>>(alloc: Global, row: &Refusal) -> bool {
    Team::<F>::new(alloc, row.n, row.limit, row.opening).err() == row.error
}

fn first_wrong<F: Family<Posted<Band>>>(
    alloc: Global,
    rows: &[Row],
) -> Result<Option<&'static str>, BoardError> {
    for row in rows {
        if !holds::<F>(alloc, row)? {
            return Ok(Some(row.shows));
        }
    }
    Ok(None)
}

fn are_refused<F: Family<Posted<Band>>>(alloc: Global, rows: &[Refusal]) -> bool {
    let mut all = true;
    for row in rows {
        all = all & is_refused::<F>(alloc, row);
    }
    all
}

/// The first row that boards over this family don't keep.
pub fn wrong_board<F: Family<Posted<Band>>>(
    alloc: Global,
) -> Result<Option<&'static str>, BoardError> {
    if !are_refused::<F>(alloc, REFUSALS) {
        return Ok(Some("what is refused"));
    }
    first_wrong::<F>(alloc, ROWS)
}
