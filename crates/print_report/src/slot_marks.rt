//! What the players of a matrix and of a composed board tell of each operation besides its history. The line of a
//! board, which has a slot for each access, goes out in pieces.
ghost use Rattle.std.specs.Prelude.{◌≡◌, ◌+◌, ◌≤◌, ◌++◌, OnOk, length};
ghost use Rattle.print_report.specs.Lines.{entry_at};
ghost use Rattle.print_report.specs.Text.{board_mark, slots_at, slots_text, stamp_mark, stamp_text};

use crate::{Line, Marks, push_after_blank, put_op_head, put_op_tail};
use history_core::{Band, Items, Op};
use matrix_core::{BoardReport, MatrixReport, Stamp};
use std::alloc::AllocError;

/// What the player of a matrix tells: the stamp of each operation.
#[derive(Clone, Copy)]
pub struct MatrixMarks<'a> {
    pub report: &'a MatrixReport<Band>,
}

impl<'a> Marks for MatrixMarks<'a> {
    ghost mark = { λ marks. stamp_mark marks.report.now.stamps };

    fn push_line(
        &self,
        text: &mut Vec<u8>,
        line: &mut Line,
        place: usize,
        op: &Op<Band>,
    ) -> Result<(), AllocError> {
        line.clear();
        put_op_tail(line, op);
        put_stamp_mark(line, self.report.stamps.as_slice(), place);
        put_op_head(line, place, op);
        text.extend_from_slice(line.as_bytes())
    }
}

/// What the player of a composed board tells: the stamp, and the slot of each access.
#[derive(Clone, Copy)]
pub struct BoardMarks<'a> {
    pub report: &'a BoardReport<Band>,
}

impl<'a> Marks for BoardMarks<'a> {
    ghost mark = { λ marks. board_mark marks.report.now.stamps marks.report.now.slots };

    #[tactic(auto, unfolding(crate::specs::Text::board_mark), using(std::proofs::Common::append_assoc))]
    fn push_line(
        &self,
        text: &mut Vec<u8>,
        line: &mut Line,
        place: usize,
        op: &Op<Band>,
    ) -> Result<(), AllocError> {
        line.clear();
        line.put(b", slots");
        put_stamp_mark(line, self.report.stamps.as_slice(), place);
        put_op_head(line, place, op);
        text.extend_from_slice(line.as_bytes())?;
        push_slots(text, line, slots_at(self.report.slots.as_slice(), place))?;
        line.clear();
        put_op_tail(line, op);
        text.extend_from_slice(line.as_bytes())
    }
}

fn put_stamp_mark(line: &mut Line, stamps: &[Option<Stamp>], place: usize)
    requires { length line.old + 47 ≤ 256 }
    ensures text { line.new ≡ stamp_mark stamps.now place ++ line.old }
    ensures len { length line.new ≤ length line.old + 47 }
{
    put_stamp(line, stamp_at(stamps, place));
    line.put(b"stamp ");
}

/// The slot of each access of an operation.
fn push_slots(text: &mut Vec<u8>, line: &mut Line, slots: &[Option<u8>]) -> Result<(), AllocError>
    ensures { OnOk result (text.new.items ≡ text.old.items ++ slots_text slots.now) }
{
    for slot in slots {
        push_after_blank(text, line, widened(*slot))?;
    }
    Ok(())
}

fn slots_at(slots: &[Items<Option<u8>>], place: usize) -> &[Option<u8>]
    ensures { result.now ≡ slots_at slots.now place }
{
    match slots.get(place) {
        Some(slots) => slots.as_slice(),
        None => &[],
    }
}

fn stamp_at(stamps: &[Option<Stamp>], place: usize) -> Option<Stamp>
    ensures { result ≡ entry_at stamps.now place }
{
    *stamps.get(place)?
}

pub fn put_stamp(line: &mut Line, stamp: Option<Stamp>)
    requires { length line.old + 41 ≤ 256 }
    ensures text { line.new ≡ stamp_text stamp ++ line.old }
    ensures len { length line.new ≤ length line.old + 41 }
{
    match stamp {
        Some(Stamp { tag, writer }) => {
            line.put_number(writer as u64);
            line.put(b".");
            line.put_number(tag);
        }
        None => line.put(b"-"),
    }
}

fn widened(slot: Option<u8>) -> Option<u64>
    ensures { result ≡ slot }
{
    slot.map(|slot| slot as u64)
}
