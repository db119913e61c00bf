//! The records of a small log, told by the lines of their writes.
ghost use Rattle.std.specs.Prelude.{◌≡◌, IfOk, option_map, slice_get, unwrap_or};
ghost use Rattle.small_log.specs.Small.{told_op, told_ops, told_record};

use crate::small::push_one;
use history_core::Op;
use reason_sentences::write_of;
use std::alloc::{AllocError, Global};

/// These operations, which stand on these lines, with records that are told by lines.
pub(crate) fn told_ops(
    alloc: Global,
    lines: &[usize],
    ops: &[Op<usize>],
) -> Result<Vec<Op<usize>>, AllocError>
    ensures { IfOk result (λ told. told.items ≡ told_ops lines.now ops.now) }
{
    let mut told = Vec::new(alloc);
    for place in 0..ops.len() {
        push_one(&mut told, told_at(lines, ops, place))?;
    }
    Ok(told)
}

fn told_at(lines: &[usize], ops: &[Op<usize>], place: usize) -> Option<Op<usize>>
    ensures { result ≡ option_map (told_op lines.now ops.now place) (slice_get ops.now place) }
{
    match ops.get(place) {
        Some(op) => Some(Op {
            item: told_item(lines, ops, place, op.item),
            ..*op
        }),
        None => None,
    }
}

fn told_item(lines: &[usize], ops: &[Op<usize>], place: usize, item: Option<usize>) -> Option<usize>
    ensures { result ≡ option_map (told_record lines.now ops.now place) item }
{
    match item {
        Some(item) => Some(told_record(lines, ops, place, item)),
        None => None,
    }
}

/// By what a record is told: the line of its write, 0 if it is the opening, and else that of the operation itself.
fn told_record(lines: &[usize], ops: &[Op<usize>], place: usize, item: usize) -> usize
    ensures { result ≡ told_record lines.now ops.now place item }
{
    if item == 0 {
        0
    } else {
        line_at(lines, write_of(ops, item).unwrap_or(place))
    }
}

fn line_at(lines: &[usize], place: usize) -> usize
    ensures { result ≡ unwrap_or (slice_get lines.now place) 0 }
{
    match lines.get(place) {
        Some(line) => *line,
        None => 0,
    }
}
