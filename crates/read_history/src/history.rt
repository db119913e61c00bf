//! What documents of histories share: the laws of their operations, and their one term.
ghost use Rattle.std.specs.Prelude.{◌≡◌, IfOk};
ghost use Rattle.std.specs.List.{list_all};
ghost use Rattle.read_history.specs.Histories.{has_item, is_actor, is_lawful, one_term, ops_in_range};

use history_core::{Band, Items, Kind, Op, Term};
use read_document::count_in_range;
use std::alloc::{AllocError, Global};

const LAST_ACTOR: usize = 15;

/// The terms of a history under one limit.
pub fn one_term(alloc: Global, limit: u64) -> Result<Items<Term>, AllocError>
    ensures { IfOk result (λ terms. terms ≡ one_term limit) }
{
    let mut terms = Vec::new(alloc);
    terms.push(Term { first: 0, limit })?;
    Ok(Items::new(terms))
}

pub fn ops_in_range(ops: &[Op<Band>]) -> bool
    ensures { result ≡ ops_in_range ops.now }
{
    count_in_range(ops.len()) && are_actors(ops)
}

fn are_actors(ops: &[Op<Band>]) -> bool
    ensures { result ≡ list_all is_actor ops.now }
{
    ops.iter().all(|op| op.who <= LAST_ACTOR)
}

pub fn are_lawful(ops: &[Op<Band>]) -> bool
    ensures { result ≡ list_all is_lawful ops.now }
{
    ops.iter().all(|op| is_lawful(op))
}

fn is_lawful(op: &Op<Band>) -> bool
    ensures { result ≡ is_lawful op.now }
{
    let in_order = match op.ends {
        Some(ends) => op.starts <= ends,
        None => true,
    };
    in_order && has_item(op)
}

fn has_item(op: &Op<Band>) -> bool
    ensures { result ≡ has_item op.now }
{
    match (op.kind, op.item) {
        (Kind::Write, Some(item)) => item.fits(),
        (Kind::Write, None) => false,
        (_, Some(_)) => true,
        (_, None) => op.ends.is_none(),
    }
}
