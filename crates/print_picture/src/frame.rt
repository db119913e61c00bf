//! The frame of a picture: its head, its lanes, its axis and its terms.

ghost use Rattle.std.specs.Prelude.{◌≡◌, ◌<◌, ◌≤◌, ◌^◌, ◌++◌, OnOk, length, slice_get};
ghost use Rattle.print_picture.specs.Picture.{begin_x, frame_text, head_text, lanes_text, size_text};
ghost use Rattle.print_picture.specs.Picture.{terms_text, tick_at, tick_moment};
ghost use Rattle.print_picture.specs.Picture.{ticks_of, ticks_text, told_moment};
ghost use Rattle.picture_shapes.specs.Shapes.{cell_rows, lane_text, row_text};

use history_core::{Band, Op, Term};
use picture_shapes::{Lanes, Scale, push_looks, put_lane, put_row, put_term, put_tick};
use print_report::Line;
use std::alloc::AllocError;

#[tactic(auto, unfolding(crate::specs::Picture::frame_text), using(std::proofs::Common::append_assoc))]
pub fn push_frame(
    text: &mut Vec<u8>,
    lanes: Lanes,
    moments: &[u64],
    scale: &Scale,
    count: usize,
    high: u64,
    ops: &[Op<Band>],
    terms: &[Term],
) -> Result<(), AllocError>
    ensures { OnOk result
        (text.new.items ≡ text.old.items ++ frame_text lanes moments.now scale.now count high ops.now terms.now) }
{
    let far = scale.far();
    push_head(text, far, high)?;
    push_lanes(text, lanes, far, count)?;
    text.extend_from_slice(b"<text class=\"a\" x=\"8\" y=\"62\">time</text>\n")?;
    push_ticks(text, moments, scale, high, ticks_of(scale))?;
    push_terms(text, scale, high, ops, terms)
}

#[tactic(auto, using(std::proofs::Common::append_assoc))]
fn push_head(text: &mut Vec<u8>, far: u64, high: u64) -> Result<(), AllocError>
    ensures { OnOk result (text.new.items ≡ text.old.items ++ head_text far high) }
{
    let mut line = Line::new();
    put_size(&mut line, far, high);
    text.extend_from_slice(line.as_bytes())?;
    push_looks(text)
}

#[tactic(auto, unfolding(crate::specs::Picture::size_text), using(std::proofs::Common::append_assoc))]
fn put_size(line: &mut Line, far: u64, high: u64)
    requires { length line.old ≡ 0 }
    ensures { line.new ≡ size_text far high ++ line.old }
{
    line.put_number(high);
    line.put(b"\" height=\"");
    line.put_number(far);
    line.put(b"<svg xmlns=\"http://www.w3.org/2000/svg\" width=\"");
}

fn push_lanes(text: &mut Vec<u8>, lanes: Lanes, far: u64, count: usize) -> Result<(), AllocError>
    ensures { OnOk result (text.new.items ≡ text.old.items ++ lanes_text lanes far count) }
{
    let mut line = Line::new();
    for lane in 0..count {
        push_lane(text, &mut line, lanes, far, lane)?;
    }
    Ok(())
}

#[tactic(auto, using(std::proofs::Common::append_assoc))]
fn push_lane(
    text: &mut Vec<u8>,
    line: &mut Line,
    lanes: Lanes,
    far: u64,
    lane: usize,
) -> Result<(), AllocError>
    ensures { OnOk result (text.new.items ≡ text.old.items ++ lane_text lanes far lane) }
{
    line.clear();
    put_lane(line, lanes, far, lane);
    text.extend_from_slice(line.as_bytes())?;
    match lanes {
        Lanes::Board { processes } if lane >= processes => push_cell_rows(text, line, lane),
        _ => Ok(()),
    }
}

/// The rows of the slots, in the lane of a board's cell.
#[tactic(auto, unfolding(picture_shapes::specs::Shapes::cell_rows), using(std::proofs::Common::append_assoc))]
fn push_cell_rows(text: &mut Vec<u8>, line: &mut Line, lane: usize) -> Result<(), AllocError>
    ensures { OnOk result (text.new.items ≡ text.old.items ++ cell_rows lane) }
{
    push_row(text, line, lane, 0)?;
    push_row(text, line, lane, 1)?;
    push_row(text, line, lane, 2)?;
    push_row(text, line, lane, 3)
}

fn push_row(text: &mut Vec<u8>, line: &mut Line, lane: usize, slot: u8) -> Result<(), AllocError>
    ensures { OnOk result (text.new.items ≡ text.old.items ++ row_text lane slot) }
{
    line.clear();
    put_row(line, lane, slot);
    text.extend_from_slice(line.as_bytes())
}

fn ticks_of(scale: &Scale) -> u64
    ensures count { result ≡ ticks_of scale.now }
    ensures most { result ≤ 20001 }
{
    20000.min(scale.most.saturating_sub(scale.least) / scale.unit() / 5) + 1
}

fn push_ticks(
    text: &mut Vec<u8>,
    moments: &[u64],
    scale: &Scale,
    high: u64,
    ticks: u64,
) -> Result<(), AllocError>
    requires { ticks ≤ 20001 }
    ensures { OnOk result (text.new.items ≡ text.old.items ++ ticks_text moments.now scale.now high ticks) }
{
    let mut line = Line::new();
    for n in 0..ticks {
        push_tick(text, &mut line, moments, scale, high, n)?;
    }
    Ok(())
}

fn push_tick(
    text: &mut Vec<u8>,
    line: &mut Line,
    moments: &[u64],
    scale: &Scale,
    high: u64,
    n: u64,
) -> Result<(), AllocError>
    requires { n ≤ 20000 }
    ensures { OnOk result (text.new.items ≡ text.old.items ++ tick_at moments.now scale.now high n) }
{
    let moment = tick_moment(scale, n);
    line.clear();
    put_tick(line, scale.x_of(moment), high, told_moment(moments, moment));
    text.extend_from_slice(line.as_bytes())
}

/// The moment of a rank, where the columns are ranks.
fn told_moment(moments: &[u64], rank: u64) -> u64
    ensures { result ≡ told_moment moments.now rank }
{
    match moments.get(rank as usize) {
        Some(moment) => *moment,
        None => rank,
    }
}

fn tick_moment(scale: &Scale, n: u64) -> u64
    requires { n ≤ 20000 }
    ensures { result ≡ tick_moment scale.now n }
{
    scale
        .least
        .saturating_add(scale.unit().saturating_mul(5 * n))
}

fn push_terms(
    text: &mut Vec<u8>,
    scale: &Scale,
    high: u64,
    ops: &[Op<Band>],
    terms: &[Term],
) -> Result<(), AllocError>
    ensures { OnOk result (text.new.items ≡ text.old.items ++ terms_text scale.now high ops.now 1 terms.now) }
{
    let mut line = Line::new();
    for k in 0..terms.len() {
        line.clear();
        put_term(
            &mut line,
            begin_x(scale, ops, terms[k].first),
            high,
            k + 1,
            terms[k].limit,
        );
        text.extend_from_slice(line.as_bytes())?;
    }
    Ok(())
}

fn begin_x(scale: &Scale, ops: &[Op<Band>], place: usize) -> u64
    ensures { result ≡ begin_x scale.now (slice_get ops.now place) }
{
    match ops.get(place) {
        Some(op) => scale.x_of(op.starts),
        None => scale.far(),
    }
}
