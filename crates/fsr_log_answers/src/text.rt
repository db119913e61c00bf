//! The lines that tell what a search for a lawful order found.
ghost use Rattle.std.specs.Prelude.{◌≡◌, ◌++◌, codes, IfOk, OnOk};
ghost use Rattle.std.specs.Fmt.{decimal};
ghost use Rattle.fsr_log_answers.specs.Text.{line_of, places_text, reason_text, search_text};

use history_core::{Reason, Search};
use itoa::Buffer;
use std::alloc::{AllocError, Global};

/// The lines that tell what was found: that there is a lawful order, and the order; or the reason why there is none.
pub(crate) fn search_text(alloc: Global, search: &Search) -> Result<Vec<u8>, AllocError>
    ensures { IfOk result (λ text. text.items ≡ search_text search.now) }
{
    match search {
        Search::Order(order) => line_of(alloc, "lawful\norder:", order.as_slice()),
        Search::Unlawful(reason) => reason_text(alloc, *reason),
    }
}

fn reason_text(alloc: Global, reason: Reason) -> Result<Vec<u8>, AllocError>
    ensures { IfOk result (λ text. text.items ≡ reason_text reason) }
{
    match reason {
        Reason::Unwritten { read } => line_of(alloc, "unlawful unwritten", &[read]),
        Reason::Early { read, write } => line_of(alloc, "unlawful early", &[read, write]),
        Reason::Stale { before, read } => line_of(alloc, "unlawful stale", &[before, read]),
        Reason::Crossed { a, b, c, d } => line_of(alloc, "unlawful crossed", &[a, b, c, d]),
        Reason::Limit { refused } => line_of(alloc, "unlawful limit", &[refused]),
    }
}

/// These words, with a blank and a place for each place after them.
fn line_of(alloc: Global, words: &str, places: &[usize]) -> Result<Vec<u8>, AllocError>
    ensures { IfOk result (λ text. text.items ≡ line_of words.now places.now) }
{
    let mut text = Vec::from_slice(alloc, words.as_bytes())?;
    push_places(&mut text, places)?;
    text.extend_from_slice(b"\n")?;
    Ok(text)
}

fn push_places(text: &mut Vec<u8>, places: &[usize]) -> Result<(), AllocError>
    ensures { OnOk result (text.new.items ≡ text.old.items ++ places_text places.now) }
{
    for place in places {
        push_place(text, *place)?;
    }
    Ok(())
}

fn push_place(text: &mut Vec<u8>, place: usize) -> Result<(), AllocError>
    ensures { OnOk result (text.new.items ≡ text.old.items ++ (codes " " ++ decimal place)) }
{
    let mut buffer = Buffer::new();
    let digits = buffer.format(place);
    text.extend_from_slice(b" ")?;
    text.extend_from_slice(digits.as_bytes())
}
