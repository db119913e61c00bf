//! Which writes an operation could see, in words.
ghost use Rattle.std.specs.Prelude.{◌≡◌, ◌++◌, OnOk, codes};
ghost use Rattle.reason_sentences.specs.Beside.{beside_text, place_at, rest_text, seen_lines};

use crate::kept::kept_at;
use crate::seen::{MOST_SEEN, could_see};
use crate::text::{push_line_of, push_words};
use history_core::Thinned;
use std::alloc::{AllocError, Global};

pub(crate) fn push_beside(
    alloc: Global,
    text: &mut Vec<u8>,
    thinned: &Thinned,
    read: usize,
) -> Result<(), AllocError>
    ensures { OnOk result (text.new.items ≡ text.old.items ++ beside_text thinned.now read) }
{
    let places = thinned.places.as_slice();
    let ops = thinned.history.ops.as_slice();
    let mut seen = could_see(alloc, ops, kept_at(places, read))?;
    let many = seen.len();
    seen.truncate(MOST_SEEN);
    push_seen(text, places, seen.as_slice(), many)
}

/// These are the first of so many.
fn push_seen(
    text: &mut Vec<u8>,
    places: &[usize],
    seen: &[usize],
    many: usize,
) -> Result<(), AllocError>
    ensures { OnOk result (text.new.items ≡ text.old.items
        ++ (codes "Lines of the writes that it could see:" ++ seen_lines places.now seen.now ++ rest_text many)) }
{
    push_words(text, "Lines of the writes that it could see:")?;
    push_seen_lines(text, places, seen)?;
    push_rest(text, many)
}

fn push_seen_lines(text: &mut Vec<u8>, places: &[usize], seen: &[usize]) -> Result<(), AllocError>
    ensures { OnOk result (text.new.items ≡ text.old.items ++ seen_lines places.now seen.now) }
{
    for kept in seen {
        push_line_of(text, " ", place_at(places, *kept))?;
    }
    Ok(())
}

/// The place of a kept operation.
pub fn place_at(places: &[usize], kept: usize) -> usize
    ensures { result ≡ place_at places.now kept }
{
    match places.get(kept) {
        Some(place) => *place,
        None => 0,
    }
}

/// Whether that were all of so many.
fn push_rest(text: &mut Vec<u8>, many: usize) -> Result<(), AllocError>
    ensures { OnOk result (text.new.items ≡ text.old.items ++ rest_text many) }
{
    if many == 0 {
        push_words(text, " none.\n")
    } else if MOST_SEEN < many {
        push_words(text, " and more.\n")
    } else {
        push_words(text, ".\n")
    }
}
