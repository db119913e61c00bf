//! From the places of a key's own log to those of the whole log.
ghost use Rattle.std.specs.Prelude.{◌≡◌, IfOk, map};
ghost use Rattle.print_keys.specs.KeysText.{whole_place, whole_places, whole_reason, whole_thinned};

use history_core::{History, Items, Reason, Thinned};
use std::alloc::{AllocError, Global};

/// The place in the whole log of a key's operation.
fn whole_place(places: &[usize], own: usize) -> usize
    ensures { result ≡ whole_place places.now own }
{
    places.get(own).copied().unwrap_or(0)
}

pub(crate) fn whole_places(
    alloc: Global,
    places: &[usize],
    own: &[usize],
) -> Result<Vec<usize>, AllocError>
    ensures { IfOk result (λ whole. whole.items ≡ whole_places places.now own.now) }
{
    let mut whole = Vec::new(alloc);
    for place in own {
        whole.push(whole_place(places, *place))?;
    }
    Ok(whole)
}

pub fn whole_reason(places: &[usize], reason: Reason) -> Reason
    ensures { result ≡ whole_reason places.now reason }
{
    match reason {
        Reason::Unwritten { read } => Reason::Unwritten {
            read: whole_place(places, read),
        },
        Reason::Early { read, write } => Reason::Early {
            read: whole_place(places, read),
            write: whole_place(places, write),
        },
        Reason::Stale { before, read } => Reason::Stale {
            before: whole_place(places, before),
            read: whole_place(places, read),
        },
        Reason::Crossed { a, b, c, d } => Reason::Crossed {
            a: whole_place(places, a),
            b: whole_place(places, b),
            c: whole_place(places, c),
            d: whole_place(places, d),
        },
        Reason::Limit { refused } => Reason::Limit {
            refused: whole_place(places, refused),
        },
    }
}

/// The same operations, at their places in the whole log.
pub fn whole_thinned(
    alloc: Global,
    places: &[usize],
    thinned: &Thinned,
) -> Result<Thinned, AllocError>
    ensures { IfOk result (λ whole. whole ≡ whole_thinned places.now thinned.now) }
{
    let terms = Vec::from_slice(alloc, thinned.history.terms.as_slice())?;
    let ops = Vec::from_slice(alloc, thinned.history.ops.as_slice())?;
    let whole = whole_places(alloc, places, thinned.places.as_slice())?;
    Ok(Thinned {
        history: History {
            opening: thinned.history.opening,
            terms: Items::new(terms),
            ops: Items::new(ops),
        },
        places: Items::new(whole),
    })
}
