//! The pieces of a line. A line is put together from its end, in a buffer of 256 bytes; each function that puts a piece
//! asks for as much room as the longest such piece needs.
ghost use Rattle.std.specs.Prelude.{◌≡◌, ◌+◌, ◌≤◌, ◌++◌, OnOk, codes, length};
ghost use Rattle.print_report.specs.Lines.{interval_text, item_text, kind_text, number_text, op_head, op_tail};

use crate::line::Line;
use history_core::{Band, Kind, Op};
use std::alloc::AllocError;

#[tactic(auto, unfolding(crate::specs::Lines::op_head), using(std::proofs::Common::append_assoc))]
pub fn put_op_head(line: &mut Line, place: usize, op: &Op<Band>)
    requires { length line.old + 110 ≤ 256 }
    ensures { line.new ≡ op_head place op.now ++ line.old }
{
    put_interval(line, op);
    line.put_number(op.who as u64);
    put_kind(line, op.kind);
    line.put_number(place as u64);
    line.put(b"op ");
}

#[tactic(auto, unfolding(crate::specs::Lines::interval_text), using(std::proofs::Common::append_assoc))]
fn put_interval(line: &mut Line, op: &Op<Band>)
    requires { length line.old + 50 ≤ 256 }
    ensures text { line.new ≡ interval_text op.now ++ line.old }
    ensures len { length line.new ≤ length line.old + 50 }
{
    line.put(b", ");
    put_number(line, op.ends);
    line.put(b"..");
    line.put_number(op.starts);
    line.put(b", ");
}

#[tactic(auto, unfolding(crate::specs::Lines::op_tail), using(std::proofs::Common::append_assoc))]
pub fn put_op_tail(line: &mut Line, op: &Op<Band>)
    requires { length line.old + 80 ≤ 256 }
    ensures text { line.new ≡ op_tail op.now ++ line.old }
    ensures len { length line.new ≤ length line.old + 80 }
{
    line.put(b"\n");
    put_item(line, op.item);
    line.put(b", ");
}

/// The kind between the place and the actor.
fn put_kind(line: &mut Line, kind: Kind)
    requires { length line.old + 13 ≤ 256 }
    ensures text { line.new ≡ codes ": " ++ kind_text kind ++ codes " by " ++ line.old }
    ensures len { length line.new ≤ length line.old + 13 }
{
    match kind {
        Kind::Write => line.put(b": write by "),
        Kind::Read => line.put(b": read by "),
        Kind::Refused => line.put(b": refused by "),
    }
}

#[tactic(auto, using(std::proofs::Common::append_assoc))]
pub fn put_item(line: &mut Line, item: Option<Band>)
    requires { length line.old + 70 ≤ 256 }
    ensures text { line.new ≡ item_text item ++ line.old }
    ensures len { length line.new ≤ length line.old + 70 }
{
    match item {
        Some(Band { lo, now, hi }) => {
            line.put(b"]");
            line.put_number(hi);
            line.put(b",");
            line.put_number(now);
            line.put(b",");
            line.put_number(lo);
            line.put(b"[");
        }
        None => line.put(b"-"),
    }
}

/// A number, or a dash for none.
pub fn put_number(line: &mut Line, number: Option<u64>)
    requires { length line.old + 20 ≤ 256 }
    ensures text { line.new ≡ number_text number ++ line.old }
    ensures len { length line.new ≤ length line.old + 20 }
{
    match number {
        Some(number) => line.put_number(number),
        None => line.put(b"-"),
    }
}

/// A blank, and a number or a dash.
#[inline]
pub fn push_after_blank(
    text: &mut Vec<u8>,
    line: &mut Line,
    number: Option<u64>,
) -> Result<(), AllocError>
    ensures { OnOk result (text.new.items ≡ text.old.items ++ (codes " " ++ number_text number)) }
{
    line.clear();
    put_number(line, number);
    line.put(b" ");
    text.extend_from_slice(line.as_bytes())
}
