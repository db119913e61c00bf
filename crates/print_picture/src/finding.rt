//! What a picture says of its history: marks in it, and a line of text.

ghost use Rattle.std.specs.Prelude.{◌≡◌, ◌++◌, OnOk, length};
ghost use Rattle.print_picture.specs.Picture.{arrows_text, end_text, finding_text, finding_words};

use crate::breaking::{push_break, put_break_words};
use crate::reasons::{push_reason, push_reason_arrows, put_reason_words};
use crate::scene::Finding;
use history_core::{Band, Op};
use picture_shapes::Scale;
use print_report::Line;
use std::alloc::AllocError;

/// The arrows of the reason why no order is lawful.
pub fn push_arrows(
    text: &mut Vec<u8>,
    scale: &Scale,
    ops: &[Op<Band>],
    finding: Finding,
) -> Result<(), AllocError>
    ensures { OnOk result (text.new.items ≡ text.old.items ++ arrows_text scale.now ops.now finding) }
{
    match finding {
        Finding::Lawful | Finding::Broken(_) => Ok(()),
        Finding::NoOrder(reason) => push_reason_arrows(text, scale, ops, reason),
    }
}

/// The marks of what breaks the order, or of the reason why no order is lawful.
pub fn push_finding(
    text: &mut Vec<u8>,
    scale: &Scale,
    lines: &[usize],
    ops: &[Op<Band>],
    order: &[usize],
    points: &[u64],
    finding: Finding,
) -> Result<(), AllocError>
    ensures { OnOk result
        (text.new.items ≡ text.old.items ++ finding_text scale.now lines.now ops.now order.now points.now finding) }
{
    match finding {
        Finding::Lawful => Ok(()),
        Finding::Broken(broken) => push_break(text, scale, ops, order, points, broken),
        Finding::NoOrder(reason) => push_reason(text, scale, lines, ops, reason),
    }
}

/// The line at the top, and the end of the picture.
#[tactic(auto, unfolding(crate::specs::Picture::end_text), using(std::proofs::Common::append_assoc))]
pub fn push_end(text: &mut Vec<u8>, lines: &[usize], finding: Finding) -> Result<(), AllocError>
    ensures { OnOk result (text.new.items ≡ text.old.items ++ end_text lines.now finding) }
{
    let mut line = Line::new();
    put_finding_words(&mut line, lines, finding);
    text.extend_from_slice(line.as_bytes())?;
    text.extend_from_slice(b"</svg>\n")
}

fn put_finding_words(line: &mut Line, lines: &[usize], finding: Finding)
    requires { length line.old ≡ 0 }
    ensures { line.new ≡ finding_words lines.now finding ++ line.old }
{
    match finding {
        Finding::Lawful => line.put(b"<text x=\"8\" y=\"24\">lawful</text>\n"),
        Finding::Broken(broken) => put_break_words(line, broken),
        Finding::NoOrder(reason) => put_reason_words(line, lines, reason),
    }
}
