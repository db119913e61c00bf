//! The writes that an operation could see.
ghost use Rattle.std.specs.Prelude.{◌≡◌, IfOk};
ghost use Rattle.reason_sentences.specs.Seen.{could_see, had_ended, is_before, is_seen, last_begin, later_begin};
ghost use Rattle.reason_sentences.specs.Seen.{seen_from, sees_opening};
ghost use Rattle.std.specs.List.{list_any};

use history_core::{Kind, Op};
use std::alloc::{AllocError, Global};

/// How many of them are told.
pub const MOST_SEEN: usize = 8;

/// The places of the writes that the operation at a place could see.
pub fn could_see(alloc: Global, ops: &[Op<usize>], place: usize) -> Result<Vec<usize>, AllocError>
    ensures { IfOk result (λ seen. seen.items ≡ could_see ops.now place) }
{
    match ops.get(place) {
        Some(op) => {
            let last = last_begin(op.starts, ops);
            seen_in(alloc, last, op.ends.unwrap_or(0), ops)
        }
        None => Ok(Vec::new(alloc)),
    }
}

/// Whether it could see the opening.
pub fn sees_opening(ops: &[Op<usize>], place: usize) -> bool
    ensures { result ≡ sees_opening ops.now place }
{
    match ops.get(place) {
        Some(op) => !has_ended(op.starts, ops),
        None => false,
    }
}

/// Whether a write had ended at a moment.
fn has_ended(moment: u64, ops: &[Op<usize>]) -> bool
    ensures { result ≡ list_any (had_ended moment) ops.now }
{
    ops.iter().any(|op| had_ended(moment, op))
}

fn seen_in(alloc: Global, last: u64, end: u64, ops: &[Op<usize>]) -> Result<Vec<usize>, AllocError>
    ensures { IfOk result (λ seen. seen.items ≡ seen_from last end 0 ops.now) }
{
    let mut seen = Vec::new(alloc);
    for place in 0..ops.len() {
        if is_seen(last, end, &ops[place]) {
            seen.push(place)?;
        }
    }
    Ok(seen)
}

fn is_seen(last: u64, end: u64, op: &Op<usize>) -> bool
    ensures { result ≡ is_seen last end op.now }
{
    op.kind == Kind::Write && (!(end < op.starts) && !had_ended(last, op))
}

/// When the last of the writes began that had ended at a moment.
fn last_begin(moment: u64, ops: &[Op<usize>]) -> u64
    ensures { result ≡ last_begin moment 0 ops.now }
{
    let mut last = 0;
    for op in ops {
        last = later_begin(moment, last, op);
    }
    last
}

fn later_begin(moment: u64, last: u64, op: &Op<usize>) -> u64
    ensures { result ≡ later_begin moment last op.now }
{
    if had_ended(moment, op) && last < op.starts {
        op.starts
    } else {
        last
    }
}

fn had_ended(moment: u64, op: &Op<usize>) -> bool
    ensures { result ≡ had_ended moment op.now }
{
    op.kind == Kind::Write && is_before(op.ends, moment)
}

pub(crate) fn is_before(end: Option<u64>, moment: u64) -> bool
    ensures { result ≡ is_before end moment }
{
    match end {
        Some(end) => end < moment,
        None => false,
    }
}
