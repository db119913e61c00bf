//! What a search among the kept operations says of the whole log.

ghost use Rattle.std.specs.Prelude.{◌≡◌, ℕ, List, length, IfOk, slice_get};
ghost use Rattle.history_core.specs.Orders.{is_write_at};
ghost use Rattle.history_core.specs.declared.history.Op.{Op};
ghost use Rattle.history_core.specs.Searches.{IsAnswered};
ghost use Rattle.history_thinning.specs.Answers.{IsThinnedAnswer, IsOfKept};
ghost use Rattle.history_thinning.specs.Thinnings.{Equal, IsThinnedLog};
ghost use Rattle.history_thinning.specs.inner.Mapped.{AreWritePlaces, place_in, reason_in};

use history_core::{Items, Kind, LogAnswer, Op, Reason, Search, Thinned};
use std::alloc::{AllocError, Global};

/// What a search of the whole log would answer, from the answer of one among the operations that are kept.
pub fn answer_of(alloc: Global, thinned: &Thinned, search: Search) -> Result<LogAnswer, AllocError>
    ensures { IfOk result
        (λ answer.
        IsAnswered Equal thinned.now.history.opening thinned.now.history.terms thinned.now.history.ops search →
        (limit : ℕ) (log : List (Op ℕ)) → IsThinnedLog limit log thinned.now →
        IsThinnedAnswer limit log answer × IsOfKept thinned.now.places answer) }
{
    let places = thinned.places.as_slice();
    match search {
        Search::Order(order) => {
            let ops = thinned.history.ops.as_slice();
            let listed = order.into_vec();
            let writes = writes_of(alloc, ops, places, listed.as_slice())?;
            Ok(LogAnswer::Lawful {
                writes: Items::new(writes),
            })
        }
        Search::Unlawful(reason) => Ok(LogAnswer::Unlawful {
            reason: reason_in(places, reason),
        }),
    }
}

/// The places in the log of the writes that an order lists.
fn writes_of(
    alloc: Global,
    ops: &[Op<usize>],
    places: &[usize],
    order: &[usize],
) -> Result<Vec<usize>, AllocError>
    ensures { IfOk result (λ v. AreWritePlaces ops.now places.now order.now (length order.now) v.items) }
{
    let mut writes = Vec::new(alloc);
    for kept in order {
        if is_write_at(ops, *kept) {
            writes.push(place_in(places, *kept))?;
        }
    }
    Ok(writes)
}

fn is_write_at(ops: &[Op<usize>], kept: usize) -> bool
    ensures { result ≡ is_write_at (slice_get ops.now kept) }
{
    match ops.get(kept) {
        Some(op) => op.kind == Kind::Write,
        None => false,
    }
}

/// The place in the log of a kept operation.
fn place_in(places: &[usize], kept: usize) -> usize
    ensures { result ≡ place_in places.now kept }
{
    match places.get(kept) {
        Some(place) => *place,
        None => kept,
    }
}

fn reason_in(places: &[usize], reason: Reason) -> Reason
    ensures { result ≡ reason_in places.now reason }
{
    match reason {
        Reason::Unwritten { read } => Reason::Unwritten {
            read: place_in(places, read),
        },
        Reason::Early { read, write } => Reason::Early {
            read: place_in(places, read),
            write: place_in(places, write),
        },
        Reason::Stale { before, read } => Reason::Stale {
            before: place_in(places, before),
            read: place_in(places, read),
        },
        Reason::Crossed { a, b, c, d } => Reason::Crossed {
            a: place_in(places, a),
            b: place_in(places, b),
            c: place_in(places, c),
            d: place_in(places, d),
        },
        Reason::Limit { refused } => Reason::Limit {
            refused: place_in(places, refused),
        },
    }
}
