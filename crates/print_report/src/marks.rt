//! What a player tells of each operation besides its history.
ghost use Rattle.std.specs.Prelude.{◌≡◌, ◌++◌, ℕ, List, OnOk};
ghost use Rattle.print_report.specs.Lines.{entry_at, op_line, slot_mark};

use crate::line::Line;
use crate::pieces::{put_number, put_op_head, put_op_tail};
use four_slot_core::CellReport;
use history_core::{Band, Op};
use std::alloc::AllocError;

/// What a player tells of each operation besides its history.
pub trait Marks {
    ghost mark: { Self → ℕ → List ℕ };

    /// Pushes the line of the operation at a place. What the buffer has doesn't matter.
    fn push_line(
        &self,
        text: &mut Vec<u8>,
        line: &mut Line,
        place: usize,
        op: &Op<Band>,
    ) -> Result<(), AllocError>
        ensures { OnOk result (text.new.items ≡ text.old.items ++ op_line place op.now (mark self.now place)) };
}

impl Marks for CellReport<Band> {
    ghost mark = { λ report. slot_mark report.slots };

    fn push_line(
        &self,
        text: &mut Vec<u8>,
        line: &mut Line,
        place: usize,
        op: &Op<Band>,
    ) -> Result<(), AllocError> {
        line.clear();
        put_op_tail(line, op);
        put_number(line, slot_at(self.slots.as_slice(), place));
        line.put(b"slot ");
        put_op_head(line, place, op);
        text.extend_from_slice(line.as_bytes())
    }
}

fn slot_at(slots: &[Option<u8>], place: usize) -> Option<u64>
    ensures { result ≡ entry_at slots.now place }
{
    let slot = (*slots.get(place)?)?;
    Some(slot as u64)
}
