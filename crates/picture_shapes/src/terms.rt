//! The slot accesses of a board's schedule, term by term.

ghost use Rattle.std.specs.Prelude.{◌≡◌, ◌≤◌, ◌<◌, ◌+◌, ◌++◌, IfOk, OnOk, drop, length, slice_get};
ghost use Rattle.matrix_core.specs.Runs.{board_span};
ghost use Rattle.matrix_core.specs.Runs.{CanPlay, max_position, step_count};
ghost use Rattle.picture_shapes.specs.Visits.{AllFit, board_visits, first_of, ops_between, term_visits, terms_visits};

use crate::lanes::{Process, WIDEST, widest};
use crate::process::{process_steps, push_own};
use crate::visit::Visit;
use history_core::{Band, Items, Op, Term};
use matrix_core::MatrixTerm;
use std::alloc::{AllocError, Global};

/// The slot accesses of a board's schedule, where they are drawn. The terms of its history are `marks`, and its
/// operations have these rows of slots.
pub fn board_visits(
    alloc: Global,
    terms: &[MatrixTerm<Band>],
    marks: &[Term],
    ops: &[Op<Band>],
    rows: &[Items<Option<u8>>],
) -> Result<Vec<Visit>, AllocError>
    requires { CanPlay terms.now }
    ensures { IfOk result (λ v. v.items ≡ board_visits terms.now marks.now ops.now rows.now) }
{
    let wide = widest(terms);
    if wide > WIDEST {
        return Ok(Vec::new(alloc));
    }
    terms_visits(alloc, wide, terms, marks, ops, rows)
}

fn terms_visits(
    alloc: Global,
    wide: usize,
    terms: &[MatrixTerm<Band>],
    marks: &[Term],
    ops: &[Op<Band>],
    rows: &[Items<Option<u8>>],
) -> Result<Vec<Visit>, AllocError>
    requires wide { wide ≤ 4 }
    requires fit { AllFit terms.now }
    requires steps { step_count terms.now < max_position }
    ensures { IfOk result (λ v. v.items ≡ terms_visits wide marks.now ops.now rows.now 0 0 terms.now) }
{
    let mut visits = Vec::new(alloc);
    let mut at = 0;
    for t in 0..terms.len() {
        let term = &terms[t];
        let first = first_in(marks, ops.len(), t);
        let own = ops_between(first, first_in(marks, ops.len(), t + 1), ops);
        push_term(
            alloc,
            &mut visits,
            at,
            wide,
            term,
            rows_from(rows, first),
            own,
        )?;
        at += term.steps.as_slice().len() as u64;
    }
    Ok(visits)
}

fn first_in(marks: &[Term], ops: usize, t: usize) -> usize
    ensures { result ≡ first_of ops (slice_get marks.now t) }
{
    match marks.get(t) {
        Some(term) => term.first,
        None => ops,
    }
}

fn ops_between(from: usize, to: usize, ops: &[Op<Band>]) -> &[Op<Band>]
    ensures { result.now ≡ ops_between from to ops.now }
{
    let rest = &ops[from.min(ops.len())..];
    &rest[..to.saturating_sub(from).min(rest.len())]
}

fn rows_from(rows: &[Items<Option<u8>>], first: usize) -> &[Items<Option<u8>>]
    ensures { result.now ≡ drop first rows.now }
{
    &rows[first.min(rows.len())..]
}

fn push_term(
    alloc: Global,
    visits: &mut Vec<Visit>,
    at: u64,
    wide: usize,
    term: &MatrixTerm<Band>,
    rows: &[Items<Option<u8>>],
    ops: &[Op<Band>],
) -> Result<(), AllocError>
    requires wide { wide ≤ 4 }
    requires many { length term.now.plans ≤ 4 }
    requires some { 1 ≤ length term.now.plans }
    requires steps { at + length term.now.steps < max_position }
    ensures { OnOk result (visits.new.items ≡ visits.old.items
        ++ term_visits at (board_span term.now) wide rows.now ops.now (length term.now.plans)) }
{
    let processes = term.plans.as_slice().len();
    for who in 0..processes {
        let steps = process_steps(alloc, at, who, processes, term.steps.as_slice())?;
        let process = Process {
            wide,
            processes,
            who,
        };
        push_own(visits, &steps, process, rows, ops)?;
    }
    Ok(())
}
