//! The operations, the slot accesses, and the joins and points of the order.

ghost use Rattle.std.specs.Prelude.{◌≡◌, ◌≤◌, ◌++◌, None, OnOk, slice_get};
ghost use Rattle.std.specs.List.{flat_map};
ghost use Rattle.print_report.specs.Lines.{entry_at};
ghost use Rattle.print_picture.specs.Picture.{join_at, joins_text, ops_text, order_shapes, point_at};
ghost use Rattle.print_picture.specs.Picture.{points_text, row_bar, slot_bar};
ghost use Rattle.print_picture.specs.Picture.{spot_of, visit_bar, visit_text, write_after};
ghost use Rattle.picture_shapes.specs.Shapes.{op_shapes};

use history_core::{Band, Kind, Op};
use matrix_core::Stamp;
use picture_shapes::{
    Bar, Join, Lanes, ROW_BAR, Scale, Spot, Visit, bar_of, class_of, put_bar, put_join,
    put_kind_words, put_point, put_told_words, row_y, y_of,
};
use print_report::Line;
use std::alloc::AllocError;

pub fn push_ops(
    text: &mut Vec<u8>,
    scale: &Scale,
    stamps: &[Option<Stamp>],
    lines: &[usize],
    ops: &[Op<Band>],
) -> Result<(), AllocError>
    ensures { OnOk result (text.new.items ≡ text.old.items ++ ops_text scale.now stamps.now lines.now 0 ops.now) }
{
    let mut words = Line::new();
    for place in 0..ops.len() {
        let stamp = stamp_at(stamps, place);
        let line = line_at(lines, place);
        push_op(text, &mut words, scale, stamp, line, &ops[place])?;
    }
    Ok(())
}

#[tactic(auto, unfolding(picture_shapes::specs::Shapes::op_shapes), using(std::proofs::Common::append_assoc))]
fn push_op(
    text: &mut Vec<u8>,
    words: &mut Line,
    scale: &Scale,
    stamp: Option<Stamp>,
    line: Option<usize>,
    op: &Op<Band>,
) -> Result<(), AllocError>
    ensures { OnOk result (text.new.items ≡ text.old.items ++ op_shapes scale.now stamp line op.now) }
{
    let bar = bar_of(class_of(op.kind), scale, op.who, op.starts, op.ends);
    words.clear();
    put_bar(words, &bar);
    text.extend_from_slice(words.as_bytes())?;
    let x = scale.x_of(op.starts);
    let y = y_of(op.who);
    words.clear();
    put_kind_words(words, x, y + 14, op.kind, stamp, line);
    text.extend_from_slice(words.as_bytes())?;
    words.clear();
    put_told_words(words, x, y + 28, line, op.item);
    text.extend_from_slice(words.as_bytes())
}

fn stamp_at(stamps: &[Option<Stamp>], place: usize) -> Option<Stamp>
    ensures { result ≡ entry_at stamps.now place }
{
    *stamps.get(place)?
}

pub fn line_at(lines: &[usize], place: usize) -> Option<usize>
    ensures { result ≡ slice_get lines.now place }
{
    lines.get(place).copied()
}

pub fn push_visits(
    text: &mut Vec<u8>,
    lanes: Lanes,
    scale: &Scale,
    visits: &[Visit],
) -> Result<(), AllocError>
    ensures { OnOk result (text.new.items ≡ text.old.items ++ flat_map (visit_text lanes scale.now) visits.now) }
{
    let mut line = Line::new();
    for visit in visits {
        line.clear();
        put_bar(&mut line, &visit_bar(lanes, scale, visit));
        text.extend_from_slice(line.as_bytes())?;
    }
    Ok(())
}

fn visit_bar(lanes: Lanes, scale: &Scale, visit: &Visit) -> Bar
    ensures { result ≡ visit_bar lanes scale.now visit.now }
{
    match lanes {
        Lanes::Actors | Lanes::Cell => slot_bar(scale, visit),
        Lanes::Board { .. } => row_bar(scale, visit),
    }
}

/// An access in the lane of its slot.
fn slot_bar(scale: &Scale, visit: &Visit) -> Bar
    ensures { result ≡ slot_bar scale.now visit.now }
{
    let lane = visit.lane.saturating_add(visit.slot as usize);
    bar_of(class_of(visit.kind), scale, lane, visit.starts, visit.ends)
}

/// An access in its slot's row of the lane of its cell.
fn row_bar(scale: &Scale, visit: &Visit) -> Bar
    ensures { result ≡ row_bar scale.now visit.now }
{
    let bar = bar_of(
        class_of(visit.kind),
        scale,
        visit.lane,
        visit.starts,
        visit.ends,
    );
    Bar {
        y: row_y(visit.lane, visit.slot),
        high: ROW_BAR,
        ..bar
    }
}

#[tactic(auto, unfolding(crate::specs::Picture::order_shapes), using(std::proofs::Common::append_assoc))]
pub fn push_order(
    text: &mut Vec<u8>,
    scale: &Scale,
    ops: &[Op<Band>],
    order: &[usize],
    points: &[u64],
) -> Result<(), AllocError>
    ensures { OnOk result (text.new.items ≡ text.old.items ++ order_shapes scale.now ops.now order.now points.now) }
{
    push_joins(text, scale, ops, order, points)?;
    push_points(text, scale, ops, order, points)
}

fn push_joins(
    text: &mut Vec<u8>,
    scale: &Scale,
    ops: &[Op<Band>],
    order: &[usize],
    points: &[u64],
) -> Result<(), AllocError>
    ensures { OnOk result
        (text.new.items ≡ text.old.items ++ joins_text scale.now ops.now points.now 0 None order.now) }
{
    let mut line = Line::new();
    let mut write = None;
    for n in 0..order.len() {
        let op = op_at(ops, order[n]);
        push_join(text, &mut line, scale, points, n, write, op)?;
        write = write_after(scale, points, n, write, op);
    }
    Ok(())
}

pub fn op_at(ops: &[Op<Band>], place: usize) -> Option<Op<Band>>
    ensures { result ≡ slice_get ops.now place }
{
    ops.get(place).copied()
}

fn push_join(
    text: &mut Vec<u8>,
    line: &mut Line,
    scale: &Scale,
    points: &[u64],
    n: usize,
    write: Option<Spot>,
    op: Option<Op<Band>>,
) -> Result<(), AllocError>
    ensures { OnOk result (text.new.items ≡ text.old.items ++ join_at scale.now points.now n write op) }
{
    let Some(op) = op else {
        return Ok(());
    };
    let Some(write) = write else {
        return Ok(());
    };
    if op.kind == Kind::Write {
        return Ok(());
    }
    line.clear();
    put_join(line, Join::Answers, write, spot_of(scale, points, n, &op));
    text.extend_from_slice(line.as_bytes())
}

fn write_after(
    scale: &Scale,
    points: &[u64],
    n: usize,
    write: Option<Spot>,
    op: Option<Op<Band>>,
) -> Option<Spot>
    ensures { result ≡ write_after scale.now points.now n write op }
{
    match op {
        Some(op) if op.kind == Kind::Write => Some(spot_of(scale, points, n, &op)),
        _ => write,
    }
}

pub fn spot_of(scale: &Scale, points: &[u64], n: usize, op: &Op<Band>) -> Spot
    ensures spot { result ≡ spot_of scale.now points.now n op.now }
    ensures low { result.y ≤ 5000 }
{
    let moment = points.get(n).copied().unwrap_or(op.starts);
    Spot {
        x: scale.x_of(moment),
        y: y_of(op.who) + 44,
    }
}

fn push_points(
    text: &mut Vec<u8>,
    scale: &Scale,
    ops: &[Op<Band>],
    order: &[usize],
    points: &[u64],
) -> Result<(), AllocError>
    ensures { OnOk result (text.new.items ≡ text.old.items ++ points_text scale.now ops.now points.now 0 order.now) }
{
    let mut line = Line::new();
    for n in 0..order.len() {
        push_point(text, &mut line, scale, points, n, op_at(ops, order[n]))?;
    }
    Ok(())
}

fn push_point(
    text: &mut Vec<u8>,
    line: &mut Line,
    scale: &Scale,
    points: &[u64],
    n: usize,
    op: Option<Op<Band>>,
) -> Result<(), AllocError>
    ensures { OnOk result (text.new.items ≡ text.old.items ++ point_at scale.now points.now n op) }
{
    let Some(op) = op else {
        return Ok(());
    };
    line.clear();
    put_point(line, n, spot_of(scale, points, n, &op));
    text.extend_from_slice(line.as_bytes())
}
