//! The report of a schedule over a composed board: what its terms gave, one after the other.

ghost use Rattle.std.specs.Prelude.{◌≡◌, ◌+◌, ◌++◌, ℕ, List, length, map, IfErr, IfOk, OnOk};
ghost use Rattle.history_core.specs.Schedules.{HasOperations};
ghost use Rattle.matrix_core.specs.inner.Operations.{one_term};
ghost use Rattle.matrix_core.specs.Listings.{IsInOrder};
ghost use Rattle.matrix_core.specs.Runs.{CanPlay};
ghost use Rattle.matrix_core.specs.Runs.{board_spans};
ghost use Rattle.composed_play.specs.BoardReports.{IsBoardRefused, IsBoardReport};

use crate::board_term::{BoardPlay, play_board_term};
use history_core::{History, Items, Op, PlayError, Term};
use matrix_core::{BoardReport, BoardSchedule, Cells, Stamp, first_overrun, list_last_term};
use std::alloc::{AllocError, Global};

/// Plays a schedule over composed boards: matrices whose cells are four-slot cells, stepped control bit by control bit
/// and slot by slot.
pub fn play_board<R: Copy>(
    alloc: Global,
    schedule: &BoardSchedule<R>,
) -> Result<BoardReport<R>, PlayError>
    requires { CanPlay schedule.now.terms }
    ensures report { IfOk result (IsBoardReport schedule.now) }
    ensures played { IfOk result (λ _. HasOperations (board_spans schedule.now.terms)) }
    ensures too_many { IfErr result (IsBoardRefused schedule.now.terms) }
{
    match first_overrun(Cells::FourSlot, schedule.terms.as_slice()) {
        Some(position) => Err(PlayError::TooManySteps { position }),
        None => play_board_terms(alloc, schedule).map_err(|_| PlayError::NoMemory),
    }
}

/// The terms of a schedule, each step of which has an operation.
fn play_board_terms<R: Copy>(
    alloc: Global,
    schedule: &BoardSchedule<R>,
) -> Result<BoardReport<R>, AllocError>
    requires can { CanPlay schedule.now.terms }
    requires left { HasOperations (board_spans schedule.now.terms) }
    ensures { IfOk result (IsBoardReport schedule.now) }
{
    let mut opening = schedule.opening;
    let mut now = 0;
    let mut told = Told {
        terms: Vec::new(alloc),
        ops: Vec::new(alloc),
        stamps: Vec::new(alloc),
        slots: Vec::new(alloc),
        order: Vec::new(alloc),
    };
    for term in schedule.terms.as_slice() {
        let play = play_board_term(alloc, opening, schedule.noise, term, now)?;
        opening = play.greatest(opening);
        now += term.steps.as_slice().len() as u64;
        add_term(alloc, term.limit, play, &mut told)?;
    }
    Ok(BoardReport {
        history: History {
            opening: schedule.opening,
            terms: Items::new(told.terms),
            ops: Items::new(told.ops),
        },
        stamps: Items::new(told.stamps),
        slots: Items::new(told.slots),
        order: Items::new(told.order),
    })
}

/// What the terms so far gave. One struct for the five lists, so that few ends of the function above let few values go.
#[derive(Drop)]
struct Told<R> {
    terms: Vec<Term>,
    ops: Vec<Op<R>>,
    stamps: Vec<Option<Stamp>>,
    slots: Vec<Items<Option<u8>>>,
    order: Vec<usize>,
}

/// Adds what a term gave behind what the terms before it gave.
fn add_term<R: Copy>(
    alloc: Global,
    limit: u64,
    play: BoardPlay<R>,
    told: &mut Told<R>,
) -> Result<(), AllocError>
    requires told { length told.old.stamps.items ≡ length told.old.ops.items }
    requires play { length play.stamps ≡ length play.ops }
    ensures terms { OnOk result
        (told.new.terms.items ≡ told.old.terms.items ++ one_term (length told.old.ops.items) limit) }
    ensures ops { OnOk result (told.new.ops.items ≡ told.old.ops.items ++ play.ops) }
    ensures stamps { OnOk result (told.new.stamps.items ≡ told.old.stamps.items ++ play.stamps) }
    ensures slots { OnOk result (told.new.slots.items ≡ told.old.slots.items ++ play.slots) }
    ensures order { OnOk result ((mine : List ℕ) × IsInOrder play.ops play.stamps mine
        × (told.new.order.items ≡ told.old.order.items ++ map (λ p. length told.old.ops.items + p) mine)) }
{
    let first = told.ops.len();
    told.terms.push(Term { first, limit })?;
    play.give(&mut told.ops, &mut told.stamps, &mut told.slots)?;
    list_last_term(alloc, &told.ops, &told.stamps, first, &mut told.order)
}
