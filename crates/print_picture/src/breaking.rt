//! What breaks an order: marks round it, and a line of text.

ghost use Rattle.std.specs.Prelude.{◌≡◌, ◌+◌, ◌≤◌, ◌++◌, OnOk, length, slice_get};
ghost use Rattle.history_core.specs.Orders.{listed_at};
ghost use Rattle.print_picture.specs.Picture.{break_text, break_words, broken_join, mark_text, pair_text};

use crate::marks::{op_at, spot_of};
use history_core::{Band, Op};
use history_explain::Break;
use picture_shapes::{Class, Join, Scale, bar_of, put_bar, put_join, put_long_words, put_words};
use print_report::Line;
use std::alloc::AllocError;

#[tactic(auto, unfolding(crate::specs::Picture::break_text))]
pub fn push_break(
    text: &mut Vec<u8>,
    scale: &Scale,
    ops: &[Op<Band>],
    order: &[usize],
    points: &[u64],
    broken: Break,
) -> Result<(), AllocError>
    ensures { OnOk result
        (text.new.items ≡ text.old.items ++ break_text scale.now ops.now order.now points.now broken) }
{
    match broken {
        Break::NoPlace { .. } => Ok(()),
        Break::Times { place, .. } => push_mark(text, scale, op_at(ops, place)),
        Break::Precedence { earlier, entry } => push_pair(
            text, scale, ops, order, points, earlier, entry,
        ),
        Break::NoItem { entry } => push_mark(text, scale, listed_at(ops, order, entry)),
        Break::Reading { entry, write: None } => push_mark(
            text,
            scale,
            listed_at(ops, order, entry),
        ),
        Break::Reading {
            entry,
            write: Some(write),
        } => push_pair(text, scale, ops, order, points, write, entry),
        Break::Limit { entry, .. } => push_mark(text, scale, listed_at(ops, order, entry)),
    }
}

fn listed_at(ops: &[Op<Band>], order: &[usize], entry: usize) -> Option<Op<Band>>
    ensures { result ≡ listed_at ops.now order.now entry }
{
    let place = order.get(entry)?;
    op_at(ops, *place)
}

#[tactic(auto, using(std::proofs::Common::append_assoc))]
fn push_pair(
    text: &mut Vec<u8>,
    scale: &Scale,
    ops: &[Op<Band>],
    order: &[usize],
    points: &[u64],
    m: usize,
    n: usize,
) -> Result<(), AllocError>
    ensures { OnOk result (text.new.items ≡ text.old.items ++ pair_text scale.now ops.now order.now points.now m n) }
{
    let a = listed_at(ops, order, m);
    let b = listed_at(ops, order, n);
    push_mark(text, scale, a)?;
    push_mark(text, scale, b)?;
    push_broken_join(text, scale, points, m, n, a, b)
}

fn push_mark(text: &mut Vec<u8>, scale: &Scale, op: Option<Op<Band>>) -> Result<(), AllocError>
    ensures { OnOk result (text.new.items ≡ text.old.items ++ mark_text scale.now op) }
{
    let Some(op) = op else {
        return Ok(());
    };
    let mut line = Line::new();
    put_bar(
        &mut line,
        &bar_of(Class::Broken, scale, op.who, op.starts, op.ends),
    );
    text.extend_from_slice(line.as_bytes())
}

fn push_broken_join(
    text: &mut Vec<u8>,
    scale: &Scale,
    points: &[u64],
    m: usize,
    n: usize,
    a: Option<Op<Band>>,
    b: Option<Op<Band>>,
) -> Result<(), AllocError>
    ensures { OnOk result (text.new.items ≡ text.old.items ++ broken_join scale.now points.now m n a b) }
{
    let Some(a) = a else {
        return Ok(());
    };
    let Some(b) = b else {
        return Ok(());
    };
    let mut line = Line::new();
    put_join(
        &mut line,
        Join::Breaks,
        spot_of(scale, points, m, &a),
        spot_of(scale, points, n, &b),
    );
    text.extend_from_slice(line.as_bytes())
}

#[tactic(auto, unfolding(crate::specs::Picture::break_words), using(std::proofs::Common::append_assoc))]
pub fn put_break_words(line: &mut Line, broken: Break)
    requires { length line.old ≡ 0 }
    ensures { line.new ≡ break_words broken ++ line.old }
{
    match broken {
        Break::NoPlace { entry } => put_words(
            line,
            b"listing: entry ",
            entry as u64,
            b" of the order is no operation",
        ),
        Break::Times { place, times } => {
            put_long_words(
                line,
                b"listing: operation ",
                place as u64,
                b" stands ",
                times as u64,
                b" times",
            )
        }
        Break::Precedence { earlier, entry } => {
            put_long_words(
                line,
                b"precedence: entry ",
                entry as u64,
                b" stands after entry ",
                earlier as u64,
                b", and ended before it began",
            )
        }
        Break::NoItem { entry } => put_words(
            line,
            b"reading: entry ",
            entry as u64,
            b" has no record",
        ),
        Break::Reading { entry, write: None } => {
            put_words(
                line,
                b"reading: entry ",
                entry as u64,
                b" has another record than the opening",
            )
        }
        Break::Reading {
            entry,
            write: Some(write),
        } => {
            put_long_words(
                line,
                b"reading: entry ",
                entry as u64,
                b" has another record than entry ",
                write as u64,
                b", the last write before it",
            )
        }
        Break::Limit { entry, writes } => {
            put_long_words(
                line,
                b"limit: entry ",
                entry as u64,
                b" was refused after ",
                writes,
                b" writes of its term",
            )
        }
    }
}
