//! Which of the kept operations a reason names.
ghost use Rattle.std.specs.Prelude.{◌≡◌, slice_get, IfOk};
ghost use Rattle.std.specs.List.{list_any};
ghost use Rattle.reason_sentences.specs.Named.{in_kept, is_named, places_of, same_item, shown_of};
ghost use Rattle.reason_sentences.specs.Named.{is_named_next, is_next, next_of, writes_one_of};

use crate::kept::{is_item, kept_at};
use crate::seen::{MOST_SEEN, could_see};
use history_core::{Kind, Op, Reason};
use std::alloc::{AllocError, Global};

/// A reason by the kept operations, which are at these places of the log.
pub fn in_kept(places: &[usize], reason: Reason) -> Reason
    ensures { result ≡ in_kept places.now reason }
{
    match reason {
        Reason::Unwritten { read } => Reason::Unwritten {
            read: kept_at(places, read),
        },
        Reason::Early { read, write } => Reason::Early {
            read: kept_at(places, read),
            write: kept_at(places, write),
        },
        Reason::Stale { before, read } => Reason::Stale {
            before: kept_at(places, before),
            read: kept_at(places, read),
        },
        Reason::Crossed { a, b, c, d } => Reason::Crossed {
            a: kept_at(places, a),
            b: kept_at(places, b),
            c: kept_at(places, c),
            d: kept_at(places, d),
        },
        Reason::Limit { refused } => Reason::Limit {
            refused: kept_at(places, refused),
        },
    }
}

/// The places that are shown of a reason by kept operations.
pub fn shown_of(alloc: Global, ops: &[Op<usize>], reason: Reason) -> Result<Vec<usize>, AllocError>
    ensures { IfOk result (λ places. places.items ≡ shown_of ops.now reason) }
{
    let mut shown = places_of(alloc, reason)?;
    if let Reason::Unwritten { read } = reason {
        let mut seen = could_see(alloc, ops, read)?;
        seen.truncate(MOST_SEEN);
        shown.extend_from_slice(seen.as_slice())?;
    }
    Ok(shown)
}

/// The places that a reason names.
fn places_of(alloc: Global, reason: Reason) -> Result<Vec<usize>, AllocError>
    ensures { IfOk result (λ places. places.items ≡ places_of reason) }
{
    match reason {
        Reason::Unwritten { read } => Vec::from_slice(alloc, &[read]),
        Reason::Early { read, write } => Vec::from_slice(alloc, &[read, write]),
        Reason::Stale { before, read } => Vec::from_slice(alloc, &[before, read]),
        Reason::Crossed { a, b, c, d } => Vec::from_slice(alloc, &[a, b, c, d]),
        Reason::Limit { refused } => Vec::from_slice(alloc, &[refused]),
    }
}

/// Whether the next of them is at this place and named.
pub fn is_named_next(
    ops: &[Op<usize>],
    places: &[usize],
    named: &[usize],
    next: usize,
    place: usize,
) -> bool
    ensures { result ≡ is_named_next ops.now places.now named.now next place }
{
    is_next(places, next, place) && is_named(ops, named, next)
}

fn is_next(places: &[usize], next: usize, place: usize) -> bool
    ensures { result ≡ is_next places.now next place }
{
    is_item(place, places.get(next).copied())
}

/// The next behind a place.
pub fn next_of(places: &[usize], next: usize, place: usize) -> usize
    ensures { result ≡ next_of places.now next place }
{
    if is_next(places, next, place) {
        next + 1
    } else {
        next
    }
}

/// Whether a kept operation is one of these, or the write of the record of one.
pub fn is_named(ops: &[Op<usize>], places: &[usize], place: usize) -> bool
    ensures { result ≡ is_named ops.now places.now place }
{
    places.contains(&place) || writes_one_of(ops, places, ops.get(place).copied())
}

fn writes_one_of(ops: &[Op<usize>], places: &[usize], op: Option<Op<usize>>) -> bool
    ensures { result ≡ writes_one_of ops.now places.now op }
{
    match op {
        Some(op) => op.kind == Kind::Write && shares_item(ops, places, op.item),
        None => false,
    }
}

fn shares_item(ops: &[Op<usize>], places: &[usize], item: Option<usize>) -> bool
    ensures { result ≡ list_any (λ p. same_item item (slice_get ops.now p)) places.now }
{
    places.iter().any(|place| same_item(ops, *place, item))
}

fn same_item(ops: &[Op<usize>], place: usize, item: Option<usize>) -> bool
    ensures { result ≡ same_item item (slice_get ops.now place) }
{
    match (item, ops.get(place)) {
        (Some(item), Some(other)) => is_item(item, other.item),
        _ => false,
    }
}
