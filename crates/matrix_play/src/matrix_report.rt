//! The report of a schedule: what its terms gave, one after the other.

ghost use Rattle.std.specs.Prelude.{◌≡◌, ◌+◌, ◌++◌, ℕ, List, length, map, IfErr, IfOk, OnOk};
ghost use Rattle.history_core.specs.Schedules.{HasOperations};
ghost use Rattle.matrix_core.specs.inner.Operations.{one_term};
ghost use Rattle.matrix_core.specs.Listings.{IsInOrder};
ghost use Rattle.matrix_core.specs.Runs.{CanPlay, IsRefusedRightly, spans_of};
ghost use Rattle.matrix_play.specs.MatrixReports.{IsMatrixReport};
ghost use Rattle.matrix_play.specs.inner.PlayedReports.{IsReport};

use crate::matrix_term::{Play, play_term};
use history_core::{History, Items, Op, PlayError, Term};
use matrix_core::{Cells, MatrixReport, MatrixSchedule, Stamp, first_overrun, list_last_term};
use std::alloc::{AllocError, Global};

/// Plays a schedule over matrices of atomic cells.
pub fn play_matrix<R: Copy>(
    alloc: Global,
    schedule: &MatrixSchedule<R>,
) -> Result<MatrixReport<R>, PlayError>
    requires { CanPlay schedule.now.terms }
    ensures report { IfOk result (IsMatrixReport schedule.now) }
    ensures played { IfOk result (λ _. HasOperations (spans_of schedule.now.terms)) }
    ensures too_many { IfErr result (IsRefusedRightly schedule.now.terms) }
{
    match first_overrun(Cells::Atomic, schedule.terms.as_slice()) {
        Some(position) => Err(PlayError::TooManySteps { position }),
        None => play_terms(alloc, schedule).map_err(|_| PlayError::NoMemory),
    }
}

/// The terms of a schedule, each step of which has an operation.
fn play_terms<R: Copy>(
    alloc: Global,
    schedule: &MatrixSchedule<R>,
) -> Result<MatrixReport<R>, AllocError>
    requires can { CanPlay schedule.now.terms }
    requires left { HasOperations (spans_of schedule.now.terms) }
    ensures { IfOk result (IsReport schedule.now) }
{
    let mut opening = schedule.opening;
    let mut now = 0;
    let mut told = Told {
        terms: Vec::new(alloc),
        ops: Vec::new(alloc),
        stamps: Vec::new(alloc),
        order: Vec::new(alloc),
    };
    for term in schedule.terms.as_slice() {
        let play = play_term(alloc, opening, term, now)?;
        opening = play.greatest(opening);
        now += term.steps.as_slice().len() as u64;
        add_term(alloc, term.limit, play, &mut told)?;
    }
    Ok(MatrixReport {
        history: History {
            opening: schedule.opening,
            terms: Items::new(told.terms),
            ops: Items::new(told.ops),
        },
        stamps: Items::new(told.stamps),
        order: Items::new(told.order),
    })
}

/// What the terms so far gave. One struct for the four lists, so that few ends of the function above let few values go.
#[derive(Drop)]
struct Told<R> {
    terms: Vec<Term>,
    ops: Vec<Op<R>>,
    stamps: Vec<Option<Stamp>>,
    order: Vec<usize>,
}

/// Adds what a term gave behind what the terms before it gave.
fn add_term<R: Copy>(
    alloc: Global,
    limit: u64,
    play: Play<R>,
    told: &mut Told<R>,
) -> Result<(), AllocError>
    requires told { length told.old.stamps.items ≡ length told.old.ops.items }
    requires play { length play.stamps ≡ length play.ops }
    ensures terms { OnOk result
        (told.new.terms.items ≡ told.old.terms.items ++ one_term (length told.old.ops.items) limit) }
    ensures ops { OnOk result (told.new.ops.items ≡ told.old.ops.items ++ play.ops) }
    ensures stamps { OnOk result (told.new.stamps.items ≡ told.old.stamps.items ++ play.stamps) }
    ensures order { OnOk result ((mine : List ℕ) × IsInOrder play.ops play.stamps mine
        × (told.new.order.items ≡ told.old.order.items ++ map (λ p. length told.old.ops.items + p) mine)) }
{
    let first = told.ops.len();
    told.terms.push(Term { first, limit })?;
    play.give(&mut told.ops, &mut told.stamps)?;
    list_last_term(alloc, &told.ops, &told.stamps, first, &mut told.order)
}
