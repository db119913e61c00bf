//! Why no order is lawful: the operations of the reason with their places, an arrow from each that precedes
//! another, and a line of text.

ghost use Rattle.std.specs.Prelude.{◌≡◌, ◌+◌, ◌≤◌, ◌++◌, OnOk, length, slice_get};
ghost use Rattle.print_picture.specs.Picture.{arrow_between, arrow_text, begin_spot, behind_words, between_words};
ghost use Rattle.print_picture.specs.Picture.{both_words, crossed_words, end_spot, name_of, named_text, number_of};
ghost use Rattle.print_picture.specs.Picture.{one_text, pairs_words, place_spot, precedence_text};
ghost use Rattle.print_picture.specs.Picture.{precedes_words, reason_arrows, reason_text, reason_words};

use crate::marks::{line_at, op_at};
use history_core::{Band, Op, Reason};
use picture_shapes::{
    Class, Join, Name, Scale, Spot, bar_of, end_of, put_bar, put_first_words, put_join,
    put_last_words, put_long_named_words, put_name, put_named_words, put_place, y_of,
};
use print_report::Line;
use std::alloc::AllocError;

#[tactic(auto, unfolding(crate::specs::Picture::reason_text), using(std::proofs::Common::append_assoc))]
pub fn push_reason(
    text: &mut Vec<u8>,
    scale: &Scale,
    lines: &[usize],
    ops: &[Op<Band>],
    reason: Reason,
) -> Result<(), AllocError>
    ensures { OnOk result (text.new.items ≡ text.old.items ++ reason_text scale.now lines.now ops.now reason) }
{
    match reason {
        Reason::Unwritten { read } => push_one(text, scale, lines, ops, read),
        Reason::Early { read, write } => push_precedence(text, scale, lines, ops, read, write),
        Reason::Stale { before, read } => push_precedence(text, scale, lines, ops, before, read),
        Reason::Crossed { a, b, c, d } => {
            push_precedence(text, scale, lines, ops, a, b)?;
            push_precedence(text, scale, lines, ops, c, d)
        }
        Reason::Limit { refused } => push_one(text, scale, lines, ops, refused),
    }
}

/// An operation that precedes another.
#[tactic(auto, using(std::proofs::Common::append_assoc))]
fn push_precedence(
    text: &mut Vec<u8>,
    scale: &Scale,
    lines: &[usize],
    ops: &[Op<Band>],
    m: usize,
    n: usize,
) -> Result<(), AllocError>
    ensures { OnOk result (text.new.items ≡ text.old.items ++ precedence_text scale.now lines.now ops.now m n) }
{
    push_one(text, scale, lines, ops, m)?;
    push_one(text, scale, lines, ops, n)
}

fn push_one(
    text: &mut Vec<u8>,
    scale: &Scale,
    lines: &[usize],
    ops: &[Op<Band>],
    place: usize,
) -> Result<(), AllocError>
    ensures { OnOk result (text.new.items ≡ text.old.items ++ one_text scale.now lines.now ops.now place) }
{
    push_named(text, scale, number_of(lines, place), op_at(ops, place))
}

/// The number of the operation at a place: its line if it has one.
fn number_of(lines: &[usize], place: usize) -> usize
    ensures { result ≡ number_of lines.now place }
{
    line_at(lines, place).unwrap_or(place)
}

/// The mark of an operation, with its number.
#[tactic(auto, using(std::proofs::Common::append_assoc))]
fn push_named(
    text: &mut Vec<u8>,
    scale: &Scale,
    number: usize,
    op: Option<Op<Band>>,
) -> Result<(), AllocError>
    ensures { OnOk result (text.new.items ≡ text.old.items ++ named_text scale.now number op) }
{
    let Some(op) = op else {
        return Ok(());
    };
    let mut line = Line::new();
    put_bar(
        &mut line,
        &bar_of(Class::Broken, scale, op.who, op.starts, op.ends),
    );
    text.extend_from_slice(line.as_bytes())?;
    line.clear();
    put_place(&mut line, number, place_spot(scale, &op));
    text.extend_from_slice(line.as_bytes())
}

/// The arrows of a reason: each from the end of an operation to the beginning of one that it precedes.
#[tactic(auto, unfolding(crate::specs::Picture::reason_arrows), using(std::proofs::Common::append_assoc))]
pub fn push_reason_arrows(
    text: &mut Vec<u8>,
    scale: &Scale,
    ops: &[Op<Band>],
    reason: Reason,
) -> Result<(), AllocError>
    ensures { OnOk result (text.new.items ≡ text.old.items ++ reason_arrows scale.now ops.now reason) }
{
    match reason {
        Reason::Unwritten { .. } | Reason::Limit { .. } => Ok(()),
        Reason::Early { read, write } => push_arrow_between(text, scale, ops, read, write),
        Reason::Stale { before, read } => push_arrow_between(text, scale, ops, before, read),
        Reason::Crossed { a, b, c, d } => {
            push_arrow_between(text, scale, ops, a, b)?;
            push_arrow_between(text, scale, ops, c, d)
        }
    }
}

fn push_arrow_between(
    text: &mut Vec<u8>,
    scale: &Scale,
    ops: &[Op<Band>],
    m: usize,
    n: usize,
) -> Result<(), AllocError>
    ensures { OnOk result (text.new.items ≡ text.old.items ++ arrow_between scale.now ops.now m n) }
{
    push_arrow(text, scale, op_at(ops, m), op_at(ops, n))
}

fn push_arrow(
    text: &mut Vec<u8>,
    scale: &Scale,
    a: Option<Op<Band>>,
    b: Option<Op<Band>>,
) -> Result<(), AllocError>
    ensures { OnOk result (text.new.items ≡ text.old.items ++ arrow_text scale.now a b) }
{
    let Some(a) = a else {
        return Ok(());
    };
    let Some(b) = b else {
        return Ok(());
    };
    let mut line = Line::new();
    put_join(
        &mut line,
        Join::Precedes,
        end_spot(scale, &a),
        begin_spot(scale, &b),
    );
    text.extend_from_slice(line.as_bytes())
}

/// Where an operation has its place written.
fn place_spot(scale: &Scale, op: &Op<Band>) -> Spot
    ensures { result ≡ place_spot scale.now op.now }
{
    Spot {
        x: scale.x_of(op.starts) + 6,
        y: y_of(op.who) + 48,
    }
}

fn begin_spot(scale: &Scale, op: &Op<Band>) -> Spot
    ensures { result ≡ begin_spot scale.now op.now }
{
    Spot {
        x: scale.x_of(op.starts),
        y: y_of(op.who) + 44,
    }
}

fn end_spot(scale: &Scale, op: &Op<Band>) -> Spot
    ensures { result ≡ end_spot scale.now op.now }
{
    Spot {
        x: end_of(scale, op.ends),
        y: y_of(op.who) + 44,
    }
}

#[tactic(auto, unfolding(crate::specs::Picture::reason_words), using(std::proofs::Common::append_assoc))]
pub fn put_reason_words(line: &mut Line, lines: &[usize], reason: Reason)
    requires { length line.old ≡ 0 }
    ensures { line.new ≡ reason_words lines.now reason ++ line.old }
{
    match reason {
        Reason::Unwritten { read } => put_named_words(
            line,
            b"unwritten: ",
            name_of(lines, read),
            b" has a record that is neither the opening nor written",
        ),
        Reason::Early { read, write } => put_long_named_words(
            line,
            b"early: ",
            name_of(lines, read),
            b" precedes ",
            name_of(lines, write),
            b", which writes its record",
        ),
        Reason::Stale { before, read } => put_long_named_words(
            line,
            b"stale: ",
            name_of(lines, before),
            b", of another record, precedes ",
            name_of(lines, read),
            b", which gave the opening",
        ),
        Reason::Crossed { a, b, c, d } => put_crossed_words(line, lines, a, b, c, d),
        Reason::Limit { refused } => put_named_words(
            line,
            b"limit: in each order ",
            name_of(lines, refused),
            b", or a refused one before it, has too few writes before it",
        ),
    }
}

/// How the operation at a place is named: by its line if it has one.
fn name_of(lines: &[usize], place: usize) -> Name
    ensures { result ≡ name_of lines.now place }
{
    match line_at(lines, place) {
        Some(line) => Name::OnLine(line),
        None => Name::AtPlace(place),
    }
}

fn put_crossed_words(line: &mut Line, lines: &[usize], a: usize, b: usize, c: usize, d: usize)
    requires { length line.old ≡ 0 }
    ensures { line.new ≡ crossed_words lines.now a b c d ++ line.old }
{
    let first = name_of(lines, a);
    let second = name_of(lines, b);
    let last = name_of(lines, d);
    if b == c {
        put_between_words(line, first, second, last)
    } else {
        put_pairs_words(line, first, second, name_of(lines, c), last)
    }
}

/// One operation between two of one record.
#[tactic(auto, unfolding(crate::specs::Picture::between_words), using(std::proofs::Common::append_assoc))]
fn put_between_words(line: &mut Line, a: Name, b: Name, d: Name)
    requires { length line.old ≡ 0 }
    ensures { line.new ≡ between_words a b d ++ line.old }
{
    put_behind_words(line, a, d);
    put_precedes(line, a, b);
    put_first_words(line, b"crossed: ");
}

#[tactic(auto, unfolding(crate::specs::Picture::behind_words), using(std::proofs::Common::append_assoc))]
fn put_behind_words(line: &mut Line, a: Name, d: Name)
    requires { length line.old ≡ 0 }
    ensures text { line.new ≡ behind_words a d ++ line.old }
    ensures len { length line.new ≤ length line.old + 114 }
{
    line.put(b"</text>\n");
    put_name(line, a);
    line.put(b", which has the record of ");
    put_name(line, d);
    line.put(b", and that precedes ");
}

#[tactic(auto, unfolding(crate::specs::Picture::pairs_words), using(std::proofs::Common::append_assoc))]
fn put_pairs_words(line: &mut Line, a: Name, b: Name, c: Name, d: Name)
    requires { length line.old ≡ 0 }
    ensures { line.new ≡ pairs_words a b c d ++ line.old }
{
    put_last_words(line, b": each of two records has to stand before the other");
    put_both(line, a, b, c, d);
    put_first_words(line, b"crossed: ");
}

#[tactic(auto, unfolding(crate::specs::Picture::both_words), using(std::proofs::Common::append_assoc))]
fn put_both(line: &mut Line, a: Name, b: Name, c: Name, d: Name)
    requires { length line.old + 145 ≤ 256 }
    ensures text { line.new ≡ both_words a b c d ++ line.old }
    ensures len { length line.new ≤ length line.old + 145 }
{
    put_precedes(line, c, d);
    line.put(b" and ");
    put_precedes(line, a, b);
}

#[tactic(auto, unfolding(crate::specs::Picture::precedes_words), using(std::proofs::Common::append_assoc))]
fn put_precedes(line: &mut Line, m: Name, n: Name)
    requires { length line.old + 70 ≤ 256 }
    ensures text { line.new ≡ precedes_words m n ++ line.old }
    ensures len { length line.new ≤ length line.old + 70 }
{
    put_name(line, n);
    line.put(b" precedes ");
    put_name(line, m);
}
