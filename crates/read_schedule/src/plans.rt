//! The plans and steps of a matrix, and its terms.
ghost use Rattle.std.specs.Prelude.{◌≡◌, ◌+◌, ◌<◌, IfNone, IfSome, length, sum_by, nat_lt};
ghost use Rattle.std.specs.List.{list_all};
ghost use Rattle.read_schedule.specs.Plans.{are_of, members, plan_fits, plans_fit};
ghost use Rattle.read_schedule.specs.Plans.{plans_in_range, term_fits, wish_fits};
ghost use Rattle.read_schedule.specs.Plans.{term_in_range, terms_in_range};
ghost use Rattle.read_document.specs.Ranges.{count_in_range};
ghost use Rattle.read_schedule.specs.Ranges.{steps_in_range};

use crate::{MAX_STEPS, steps_in_range};
use history_core::{Band, Items, Wish};
use history_fields::limit_in_range;
use matrix_core::MatrixTerm;
use read_document::MAX_OPERATIONS;

const MIN_PROCESSES: usize = 2;

const MAX_PROCESSES: usize = 16;

const MAX_TERMS: usize = 16;

/// A plan for each of 2 to 16 processes.
pub fn plans_in_range(plans: &[Items<Wish<Band>>]) -> bool
    ensures { result ≡ plans_in_range plans.now }
{
    MIN_PROCESSES <= plans.len()
        && plans.len() <= MAX_PROCESSES
        && room_beside(MAX_OPERATIONS, plans).is_some()
}

/// The room that the members of all plans leave, or none where they have not enough.
fn room_beside(room: usize, plans: &[Items<Wish<Band>>]) -> Option<usize>
    ensures left { IfSome result (λ left. left + members plans.now ≡ room) }
    ensures full { IfNone result (room < members plans.now) }
{
    let mut left = room;
    for plan in plans {
        left = left.checked_sub(plan.as_slice().len())?;
    }
    Some(left)
}

/// Each step is of one of the processes.
pub fn are_of(processes: usize, steps: &[usize]) -> bool
    ensures { result ≡ are_of processes steps.now }
{
    steps_in_range(steps.len()) && are_below(processes, steps)
}

fn are_below(processes: usize, steps: &[usize]) -> bool
    ensures { result ≡ list_all (λ step. nat_lt step processes) steps.now }
{
    steps.iter().all(|&step| step < processes)
}

/// Each record that is to be written fits.
pub fn plans_fit(plans: &[Items<Wish<Band>>]) -> bool
    ensures { result ≡ plans_fit plans.now }
{
    plans.iter().all(|plan| plan_fits(plan.as_slice()))
}

fn plan_fits(plan: &[Wish<Band>]) -> bool
    ensures { result ≡ plan_fits plan.now }
{
    plan.iter().all(|wish| wish_fits(wish))
}

fn wish_fits(wish: &Wish<Band>) -> bool
    ensures { result ≡ wish_fits wish.now }
{
    match wish {
        Wish::Write(record) => record.fits(),
        Wish::Read => true,
    }
}

/// 1 to 16 terms, and over all of them no more members and steps than one may have.
pub fn terms_in_range(terms: &[MatrixTerm<Band>]) -> bool
    ensures { result ≡ terms_in_range terms.now }
{
    1 <= terms.len()
        && terms.len() <= MAX_TERMS
        && are_in_range(terms)
        && members_in_range(terms)
        && all_steps_in_range(terms)
}

fn are_in_range(terms: &[MatrixTerm<Band>]) -> bool
    ensures { result ≡ list_all term_in_range terms.now }
{
    terms.iter().all(|term| term_in_range(term))
}

fn term_in_range(term: &MatrixTerm<Band>) -> bool
    ensures { result ≡ term_in_range term.now }
{
    let plans = term.plans.as_slice();
    limit_in_range(term.limit)
        && plans_in_range(plans)
        && are_of(plans.len(), term.steps.as_slice())
}

fn members_in_range(terms: &[MatrixTerm<Band>]) -> bool
    ensures { result ≡ count_in_range (sum_by (λ term. members term.plans) terms.now) }
{
    let mut left = MAX_OPERATIONS;
    for term in terms {
        match room_beside(left, term.plans.as_slice()) {
            Some(room) => left = room,
            None => return false,
        }
    }
    true
}

fn all_steps_in_range(terms: &[MatrixTerm<Band>]) -> bool
    ensures { result ≡ steps_in_range (sum_by (λ term. length term.steps) terms.now) }
{
    let mut left = MAX_STEPS;
    for term in terms {
        let steps = term.steps.as_slice().len();
        if left < steps {
            return false;
        }
        left -= steps;
    }
    true
}

/// Each record that is to be written in a term fits.
pub fn terms_fit(terms: &[MatrixTerm<Band>]) -> bool
    ensures { result ≡ list_all term_fits terms.now }
{
    terms.iter().all(|term| plans_fit(term.plans.as_slice()))
}
