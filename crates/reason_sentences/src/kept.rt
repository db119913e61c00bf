//! The operations that are kept of a log, by their places and records.
ghost use Rattle.std.specs.Prelude.{◌≡◌, ◌==◌};
ghost use Rattle.std.specs.List.{position};
ghost use Rattle.reason_sentences.specs.KeptAt.{is_item, kept_at, writes};

use history_core::{Kind, Op};

/// Which of the kept operations is the one at this place of the log.
pub fn kept_at(places: &[usize], place: usize) -> usize
    ensures { result ≡ kept_at places.now place }
{
    match found_at(places, place) {
        Some(kept) => kept,
        None => places.len(),
    }
}

fn found_at(places: &[usize], place: usize) -> Option<usize>
    ensures { result ≡ position (λ p. p == place) places.now }
{
    places.iter().position(|other| *other == place)
}

/// Whether a record is this one.
pub fn is_item(item: usize, other: Option<usize>) -> bool
    ensures { result ≡ is_item item other }
{
    match other {
        Some(other) => item == other,
        None => false,
    }
}

/// The place of the write of a record.
pub fn write_of(ops: &[Op<usize>], item: usize) -> Option<usize>
    ensures { result ≡ position (writes item) ops.now }
{
    ops.iter().position(|op| writes(item, op))
}

fn writes(item: usize, op: &Op<usize>) -> bool
    ensures { result ≡ writes item op.now }
{
    op.kind == Kind::Write && is_item(item, op.item)
}
