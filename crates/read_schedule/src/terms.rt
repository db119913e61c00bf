//! The terms of a schedule over a matrix of cells.
ghost use Rattle.std.specs.Prelude.{◌≡◌, IfOk, map, option_map};
ghost use Rattle.serde_json.specs.View.{view};
ghost use Rattle.matrix_core.specs.Runs.{CanPlay};
ghost use Rattle.read_document.specs.Refusals.{field, Gives};
ghost use Rattle.read_history.specs.Shapes.{all_of, as_list};
ghost use Rattle.read_document.specs.declared.key.Key.TheVariants.{Terms};
ghost use Rattle.read_schedule.specs.Shapes.{as_term};
ghost use Rattle.read_schedule.specs.Terms.{is_titled, several_in, single, single_in};
ghost use Rattle.read_schedule.specs.Terms.{terms_in, terms_there, writes_key};

use crate::plans::{are_of, plans_in_range, terms_in_range};
use history_core::{Band, Items, Wish};
use history_fields::limit_in_range;
use matrix_core::MatrixTerm;
use read_document::{DocError, Key, items_in, must, required, shaped};
use read_history::{field, list_field, list_of};
use serde_json::Value;
use std::alloc::{AllocError, Global};

/// Whether the terms stand under their key, and are told in the report.
pub fn is_titled(value: &Value) -> bool
    ensures { result ≡ is_titled (view value.now) }
{
    value.get(Key::Terms.name()).is_some()
}

/// The keys of the terms are there.
pub fn terms_there(value: &Value, titled: bool) -> Result<(), DocError>
    ensures { result ≡ terms_there titled (view value.now) }
{
    if titled {
        required(value, &[Key::Terms])
    } else {
        required(value, &[Key::Limit, Key::Plans, Key::Steps])
    }
}

/// The terms, of their shapes and within their ranges.
pub fn terms_in(
    alloc: Global,
    value: &Value,
    titled: bool,
) -> Result<Items<MatrixTerm<Band>>, DocError>
    ensures terms { Gives (λ terms. terms) result (terms_in titled (view value.now)) }
    ensures playable { IfOk result CanPlay }
{
    if titled {
        several_in(alloc, value)
    } else {
        single_in(alloc, value)
    }
}

#[tactic(auto, unfolding(crate::specs::Terms::several_in))]
fn several_in(alloc: Global, value: &Value) -> Result<Items<MatrixTerm<Band>>, DocError>
    ensures terms { Gives (λ terms. terms) result (several_in (view value.now)) }
    ensures playable { IfOk result CanPlay }
{
    let terms = terms_under(alloc, value)?;
    must(
        terms_in_range(terms.as_slice()),
        DocError::Range(Key::Terms),
    )?;
    Ok(Items::new(terms))
}

/// The terms that stand under their key, of their shapes.
fn terms_under(alloc: Global, value: &Value) -> Result<Vec<MatrixTerm<Band>>, DocError>
    ensures { Gives (λ v. v.items) result (field Terms (as_list as_term) (view value.now)) }
{
    let found = match value.get(Key::Terms.name()) {
        Some(terms) => terms_of(alloc, terms)?,
        None => None,
    };
    shaped(Key::Terms, found)
}

/// The terms of an array.
fn terms_of(alloc: Global, value: &Value) -> Result<Option<Vec<MatrixTerm<Band>>>, AllocError>
    ensures { IfOk result (λ found. option_map (λ v. v.items) found ≡ as_list as_term (view value.now)) }
{
    match items_in(value) {
        Some(values) => all_terms(alloc, values),
        None => Ok(None),
    }
}

fn all_terms(alloc: Global, values: &[Value]) -> Result<Option<Vec<MatrixTerm<Band>>>, AllocError>
    ensures { IfOk result (λ found. option_map (λ v. v.items) found ≡ all_of as_term (map view values.now)) }
{
    let mut found = Vec::with_capacity(alloc, values.len())?;
    for item in values {
        let Some(term) = term_in(alloc, item)? else {
            return Ok(None);
        };
        found.push(term)?;
    }
    Ok(Some(found))
}

fn term_in(alloc: Global, value: &Value) -> Result<Option<MatrixTerm<Band>>, AllocError>
    ensures { IfOk result (λ found. found ≡ as_term (view value.now)) }
{
    let (Some(limit), Some(plans), Some(steps)) = (
        value.get("limit"),
        value.get("plans"),
        value.get("steps"),
    ) else {
        return Ok(None);
    };
    let Some(limit) = limit.as_u64() else {
        return Ok(None);
    };
    let Some(plans) = list_of(alloc, plans)? else {
        return Ok(None);
    };
    let Some(steps) = list_of(alloc, steps)? else {
        return Ok(None);
    };
    Ok(Some(MatrixTerm {
        limit,
        plans: Items::new(plans),
        steps: Items::new(steps),
    }))
}

/// One term, its keys at the top.
#[tactic(auto, unfolding(crate::specs::Terms::single_in))]
fn single_in(alloc: Global, value: &Value) -> Result<Items<MatrixTerm<Band>>, DocError>
    ensures terms { Gives (λ terms. terms) result (single_in (view value.now)) }
    ensures playable { IfOk result CanPlay }
{
    let limit: u64 = field(alloc, value, Key::Limit)?;
    let plans: Vec<Items<Wish<Band>>> = list_field(alloc, value, Key::Plans)?;
    let steps: Vec<usize> = list_field(alloc, value, Key::Steps)?;
    must(limit_in_range(limit), DocError::Range(Key::Limit))?;
    must(
        plans_in_range(plans.as_slice()),
        DocError::Range(Key::Plans),
    )?;
    must(
        are_of(plans.len(), steps.as_slice()),
        DocError::Range(Key::Steps),
    )?;
    let terms = single(alloc, limit, Items::new(plans), Items::new(steps))?;
    Ok(terms)
}

fn single(
    alloc: Global,
    limit: u64,
    plans: Items<Items<Wish<Band>>>,
    steps: Items<usize>,
) -> Result<Items<MatrixTerm<Band>>, AllocError>
    ensures { IfOk result (λ terms. terms ≡ single limit plans steps) }
{
    let mut terms = Vec::new(alloc);
    terms.push(MatrixTerm {
        limit,
        plans,
        steps,
    })?;
    Ok(Items::new(terms))
}

/// The key whose law the writes of the terms have to obey.
pub fn writes_key(titled: bool) -> Key
    ensures { result ≡ writes_key titled }
{
    if titled { Key::Terms } else { Key::Plans }
}
