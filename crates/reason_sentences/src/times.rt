//! When the operations at places of a log begin and end.
ghost use Rattle.std.specs.Prelude.{◌≡◌, ◌++◌, OnOk};
ghost use Rattle.reason_sentences.specs.Times.{apart_text, begin_at, end_at, op_at};

use crate::kept::kept_at;
use crate::pieces::{Piece, push_pieces};
use history_core::{Op, Thinned};
use std::alloc::AllocError;

/// One operation had ended when the other began, and words behind that.
pub(crate) fn push_apart(
    text: &mut Vec<u8>,
    thinned: &Thinned,
    a: usize,
    b: usize,
    behind: &str,
) -> Result<(), AllocError>
    ensures { OnOk result (text.new.items ≡ text.old.items ++ (apart_text thinned.now a b ++ behind.now)) }
{
    let pieces = [
        Piece::Line("line ", a),
        Piece::Number(" ended at ", end_at(thinned, a)),
        Piece::Line(", line ", b),
        Piece::Number(" began at ", begin_at(thinned, b)),
        Piece::Words(behind),
    ];
    push_pieces(text, &pieces)
}

pub(crate) fn op_at(thinned: &Thinned, place: usize) -> Option<Op<usize>>
    ensures { result ≡ op_at thinned.now place }
{
    let kept = kept_at(thinned.places.as_slice(), place);
    thinned.history.ops.as_slice().get(kept).copied()
}

fn end_at(thinned: &Thinned, place: usize) -> u64
    ensures { result ≡ end_at thinned.now place }
{
    match op_at(thinned, place) {
        Some(op) => op.ends.unwrap_or(0),
        None => 0,
    }
}

pub(crate) fn begin_at(thinned: &Thinned, place: usize) -> u64
    ensures { result ≡ begin_at thinned.now place }
{
    match op_at(thinned, place) {
        Some(op) => op.starts,
        None => 0,
    }
}
