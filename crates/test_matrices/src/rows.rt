//! Worked rows of matrices and boards: what they share. The expected intervals, stamps, slots, answers and
//! orders are those of the rows.

ghost use Rattle.std.specs.Prelude.{◌≡◌, ◌<◌, IsTrue};
ghost use Rattle.matrix_core.specs.Runs.{CanPlay, IsTerm, step_count};

/// An operation of a row.
macro_rules! op {
    ($kind:ident, $who:expr, $starts:expr, $ends:expr, $item:expr) => {
        Op {
            who: $who,
            kind: Kind::$kind,
            starts: $starts,
            ends: $ends,
            item: $item,
        }
    };
}

/// The stamp of an operation of a row.
macro_rules! stamp {
    ($tag:expr, $writer:expr) => {
        Some(Stamp {
            tag: $tag,
            writer: $writer,
        })
    };
}

mod boards;
mod limits;
mod matrices;
mod stepped;

use history_check::check_order;
use history_core::{Band, History, Items, Kind, MAX_LIMIT, Op, PlayError, Verdict, Wish};
use matrix_core::{MatrixTerm, Stamp};
use std::alloc::{AllocError, Global};

pub(crate) const OPENING: Band = Band {
    lo: 0,
    now: 0,
    hi: 0,
};

pub(crate) const A: Band = Band {
    lo: 1,
    now: 1,
    hi: 1,
};

pub(crate) const B: Band = Band {
    lo: 2,
    now: 2,
    hi: 2,
};

pub(crate) const C: Band = Band {
    lo: 3,
    now: 3,
    hi: 3,
};

/// A term of a row: its limit, what each process is to do, and the steps: how many of which
/// process, one after the other.
#[derive(Clone, Copy)]
pub(crate) struct Planned {
    pub(crate) limit: u64,
    pub(crate) plans: &'static [&'static [Wish<Band>]],
    pub(crate) runs: &'static [(usize, usize)],
}

/// What a row tells: the operations, their stamps, and their order.
#[derive(Clone, Copy)]
pub(crate) struct Told {
    pub(crate) ops: &'static [Op<Band>],
    pub(crate) stamps: &'static [Option<Stamp>],
    pub(crate) order: &'static [usize],
}

/// So many steps of each of these processes, one process after the other.
pub(crate) fn steps_of(alloc: Global, runs: &[(usize, usize)]) -> Result<Vec<usize>, AllocError> {
    let mut steps = Vec::new(alloc);
    for (process, count) in runs {
        for _ in 0..*count {
            steps.push(*process)?;
        }
    }
    Ok(steps)
}

fn plans_of(alloc: Global, plans: &[&[Wish<Band>]]) -> Result<Vec<Items<Wish<Band>>>, AllocError> {
    let mut all = Vec::new(alloc);
    for plan in plans {
        all.push(Items::new(plan.to_vec(alloc)?))?;
    }
    Ok(all)
}

fn term_of(alloc: Global, planned: &Planned) -> Result<MatrixTerm<Band>, AllocError> {
    let plans = Items::new(plans_of(alloc, planned.plans)?);
    Ok(MatrixTerm {
        limit: planned.limit,
        plans,
        steps: Items::new(steps_of(alloc, planned.runs)?),
    })
}

pub(crate) fn terms_of(
    alloc: Global,
    planned: &[Planned],
) -> Result<Vec<MatrixTerm<Band>>, AllocError> {
    let mut terms = Vec::new(alloc);
    for term in planned {
        terms.push(term_of(alloc, term)?)?;
    }
    Ok(terms)
}

fn is_term(term: &MatrixTerm<Band>) -> bool
    ensures { IsTrue result → IsTerm term.now }
{
    let processes = term.plans.as_slice().len();
    let sized = 2 <= processes && processes <= 16 && 1 <= term.limit && term.limit <= MAX_LIMIT;
    sized && term.steps.as_slice().iter().all(|who| *who < processes)
}

pub(crate) fn can_play(terms: &[MatrixTerm<Band>]) -> bool
    ensures { IsTrue result → CanPlay terms.now }
{
    let mut steps: u64 = 0;
    for term in terms {
        if !is_term(term) {
            return false;
        }
        match steps.checked_add(term.steps.as_slice().len() as u64) {
            Some(sum) => steps = sum,
            None => return false,
        }
    }
    steps < u64::MAX && 0 < terms.len()
}

/// Whether the history opens so and has these operations, and this order of them is lawful.
pub(crate) fn has(history: &History<Band>, ops: &[Op<Band>], order: &[usize]) -> bool {
    history.opening == OPENING
        && history.ops.as_slice() == ops
        && check_order(history, order) == Verdict::Lawful
}
