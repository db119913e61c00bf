//! Documents of kind `check`.
ghost use Rattle.std.specs.Prelude.{◌≡◌};
ghost use Rattle.std.specs.List.{list_all};
ghost use Rattle.read_history.specs.Check.{allowed, check_document, check_in, check_of, is_place, order_in_range};
ghost use Rattle.read_document.specs.Refusals.{Gives};
ghost use Rattle.serde_json.specs.View.{view};

use crate::CheckDocument;
use crate::history::{are_lawful, one_term, ops_in_range};
use crate::shape::{field, list_field};
use history_core::{Band, History, Items, Op};
use history_fields::limit_in_range;
use read_document::{DocError, Key, count_in_range, is_kind, must, read_value, required};
use serde_json::Value;
use std::alloc::Global;
use std::mem::forget;

const LAST_PLACE: usize = 9_999;

/// The document that the bytes stand for, or the first refusal with its first key. It is `read_value` and then
/// `check_document`; the value in between is freed.
#[tactic(auto, unfolding(crate::specs::Check::check_of))]
pub fn read_check(alloc: Global, bytes: &[u8]) -> Result<CheckDocument, DocError>
    ensures { Gives (λ d. d) result (check_of bytes.now) }
{
    let value = read_value(alloc, bytes)?;
    check_document(alloc, &value)
}

/// The same, but the value in between is left unfreed: for a run that reads one document and
/// ends, with which the value goes.
#[tactic(auto, unfolding(crate::specs::Check::check_of))]
pub fn read_check_leaking(alloc: Global, bytes: &[u8]) -> Result<CheckDocument, DocError>
    ensures { Gives (λ d. d) result (check_of bytes.now) }
{
    let value = read_value(alloc, bytes)?;
    let document = check_document(alloc, &value);
    forget(value);
    document
}

/// The document that a value stands for, which its caller keeps.
pub fn check_document(alloc: Global, value: &Value) -> Result<CheckDocument, DocError>
    ensures { Gives (λ d. d) result (check_document (view value.now)) }
{
    if is_kind(value, "check") {
        check_in(alloc, value)
    } else {
        Err(DocError::Kind)
    }
}

#[tactic(auto, unfolding(crate::specs::Check::check_in))]
fn check_in(alloc: Global, value: &Value) -> Result<CheckDocument, DocError>
    ensures { Gives (λ d. d) result (check_in (view value.now)) }
{
    required(value, &[Key::Opening, Key::Limit, Key::Ops, Key::Order])?;
    let opening: Band = field(alloc, value, Key::Opening)?;
    let limit: u64 = field(alloc, value, Key::Limit)?;
    let ops: Vec<Op<Band>> = list_field(alloc, value, Key::Ops)?;
    let order: Vec<usize> = list_field(alloc, value, Key::Order)?;
    allowed(opening, limit, ops.as_slice(), order.as_slice())?;
    let terms = one_term(alloc, limit)?;
    let history = History {
        opening,
        terms,
        ops: Items::new(ops),
    };
    Ok(CheckDocument {
        history,
        order: Items::new(order),
    })
}

/// The ranges, and then the laws.
#[tactic(auto, unfolding(crate::specs::Check::allowed))]
fn allowed(opening: Band, limit: u64, ops: &[Op<Band>], order: &[usize]) -> Result<(), DocError>
    ensures { result ≡ allowed opening limit ops.now order.now }
{
    must(limit_in_range(limit), DocError::Range(Key::Limit))?;
    must(ops_in_range(ops), DocError::Range(Key::Ops))?;
    must(order_in_range(order), DocError::Range(Key::Order))?;
    must(opening.fits(), DocError::Law(Key::Opening))?;
    must(are_lawful(ops), DocError::Law(Key::Ops))
}

fn order_in_range(order: &[usize]) -> bool
    ensures { result ≡ order_in_range order.now }
{
    count_in_range(order.len()) && are_places(order)
}

fn are_places(order: &[usize]) -> bool
    ensures { result ≡ list_all is_place order.now }
{
    order.iter().all(|&place| place <= LAST_PLACE)
}
