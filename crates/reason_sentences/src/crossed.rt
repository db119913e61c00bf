//! What is said of two records each of which has to stand before the other.
ghost use Rattle.std.specs.Prelude.{◌≡◌, ◌++◌, OnOk};
ghost use Rattle.reason_sentences.specs.Crossed.{both_text, crossed_text, had_ended_at};
ghost use Rattle.reason_sentences.specs.Crossed.{old_text, others_text, replaced_by, replaced_text};
ghost use Rattle.reason_sentences.specs.Crossed.{shown_by, times_text, write_at, written_at};
ghost use Rattle.std.specs.Option.{option_and_then};

use crate::beside::push_beside;
use crate::kept::write_of;
use crate::pieces::{Piece, push_pieces};
use crate::seen::is_before;
use crate::text::push_words;
use crate::times::{begin_at, op_at, push_apart};
use history_core::Thinned;
use std::alloc::{AllocError, Global};

pub(crate) fn push_crossed(
    alloc: Global,
    text: &mut Vec<u8>,
    thinned: &Thinned,
    a: usize,
    b: usize,
    c: usize,
    d: usize,
) -> Result<(), AllocError>
    ensures { OnOk result (text.new.items ≡ text.old.items ++ crossed_text thinned.now a b c d) }
{
    match (replaced_by(thinned, a, b), replaced_by(thinned, c, d)) {
        (Some(write), _) => push_old(alloc, text, thinned, a, write, c, d),
        (None, Some(write)) => push_old(alloc, text, thinned, c, write, a, b),
        (None, None) => push_both(text, thinned, a, b, c, d),
    }
}

/// The write of the record of b, if a had ended when it began.
fn replaced_by(thinned: &Thinned, a: usize, b: usize) -> Option<usize>
    ensures { result ≡ replaced_by thinned.now a b }
{
    match write_at(thinned, b) {
        Some(write) if had_ended_at(thinned, a, write) => Some(write),
        _ => None,
    }
}

/// Whether an operation had ended when another one began.
fn had_ended_at(thinned: &Thinned, a: usize, b: usize) -> bool
    ensures { result ≡ had_ended_at thinned.now a b }
{
    match op_at(thinned, a) {
        Some(op) => is_before(op.ends, begin_at(thinned, b)),
        None => false,
    }
}

/// The place of the write of the record of an operation.
fn write_at(thinned: &Thinned, place: usize) -> Option<usize>
    ensures { result ≡ write_at thinned.now place }
{
    match op_at(thinned, place) {
        Some(op) => written_by(thinned, op.item),
        None => None,
    }
}

fn written_by(thinned: &Thinned, item: Option<usize>) -> Option<usize>
    ensures { result ≡ option_and_then (written_at thinned.now) item }
{
    match item {
        Some(item) => written_at(thinned, item),
        None => None,
    }
}

fn written_at(thinned: &Thinned, item: usize) -> Option<usize>
    ensures { result ≡ written_at thinned.now item }
{
    match write_of(thinned.history.ops.as_slice(), item) {
        Some(kept) => thinned.places.as_slice().get(kept).copied(),
        None => None,
    }
}

/// That `read` gave the record of `first`, which `write` had replaced, as `by` shows; and which writes it could see.
fn push_old(
    alloc: Global,
    text: &mut Vec<u8>,
    thinned: &Thinned,
    first: usize,
    write: usize,
    by: usize,
    read: usize,
) -> Result<(), AllocError>
    ensures { OnOk result (text.new.items ≡ text.old.items ++ old_text thinned.now first write by read) }
{
    push_replaced(text, first, write, read)?;
    push_shown_by(text, write, by)?;
    push_times(text, thinned, first, write, by, read)?;
    push_beside(alloc, text, thinned, read)
}

fn push_replaced(
    text: &mut Vec<u8>,
    first: usize,
    write: usize,
    read: usize,
) -> Result<(), AllocError>
    ensures { OnOk result (text.new.items ≡ text.old.items ++ replaced_text first write read) }
{
    let pieces = [
        Piece::Line("Line ", read),
        Piece::Line(" gave an old record, that of line ", first),
        Piece::Line(", which line ", write),
        Piece::Words(" had replaced"),
    ];
    push_pieces(text, &pieces)
}

/// The operation that shows that a write had taken effect, if it isn't the write.
fn push_shown_by(text: &mut Vec<u8>, write: usize, by: usize) -> Result<(), AllocError>
    ensures { OnOk result (text.new.items ≡ text.old.items ++ shown_by write by) }
{
    if write == by {
        push_words(text, ": ")
    } else {
        let pieces = [Piece::Line(", as line ", by), Piece::Words(" shows: ")];
        push_pieces(text, &pieces)
    }
}

/// That a had ended when b began, and c when d began.
fn push_times(
    text: &mut Vec<u8>,
    thinned: &Thinned,
    a: usize,
    b: usize,
    c: usize,
    d: usize,
) -> Result<(), AllocError>
    ensures { OnOk result (text.new.items ≡ text.old.items ++ times_text thinned.now a b c d) }
{
    push_apart(text, thinned, a, b, "; ")?;
    push_apart(text, thinned, c, d, ".\n")
}

/// That each of two records has to stand before the other, and which lines are of which.
fn push_both(
    text: &mut Vec<u8>,
    thinned: &Thinned,
    a: usize,
    b: usize,
    c: usize,
    d: usize,
) -> Result<(), AllocError>
    ensures { OnOk result (text.new.items ≡ text.old.items ++ both_text thinned.now a b c d) }
{
    let pieces = [
        Piece::Line("Lines ", a),
        Piece::Line(" and ", d),
        Piece::Words(" are of one record, "),
    ];
    push_pieces(text, &pieces)?;
    push_others(text, b, c)?;
    push_times(text, thinned, a, b, c, d)
}

/// The lines of the other record, which may be one between the first two.
fn push_others(text: &mut Vec<u8>, b: usize, c: usize) -> Result<(), AllocError>
    ensures { OnOk result (text.new.items ≡ text.old.items ++ others_text b c) }
{
    if b == c {
        let pieces = [
            Piece::Line("and line ", b),
            Piece::Words(", of another, stands between them: "),
        ];
        push_pieces(text, &pieces)
    } else {
        let pieces = [
            Piece::Line("lines ", b),
            Piece::Line(" and ", c),
            Piece::Words(" of another, and each record has to stand before the other: "),
        ];
        push_pieces(text, &pieces)
    }
}
