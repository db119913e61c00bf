//! The lines of operations, and of an order.
ghost use Rattle.std.specs.Prelude.{◌≡◌, ◌++◌, OnOk};
ghost use Rattle.print_report.specs.Lines.{lines_from, order_text};

use crate::line::Line;
use crate::marks::Marks;
use crate::pieces::push_after_blank;
use history_core::{Band, Op};
use std::alloc::AllocError;

/// A line for each operation from a place on.
pub fn push_lines_from<M: Marks>(
    text: &mut Vec<u8>,
    marks: &M,
    ops: &[Op<Band>],
    from: usize,
) -> Result<(), AllocError>
    ensures { OnOk result (text.new.items ≡ text.old.items ++ lines_from (M.mark marks.now) ops.now from) }
{
    let mut line = Line::new();
    for place in from..ops.len() {
        marks.push_line(text, &mut line, place, &ops[place])?;
    }
    Ok(())
}

/// The line of an order.
pub fn push_order(text: &mut Vec<u8>, order: &[usize]) -> Result<(), AllocError>
    ensures { OnOk result (text.new.items ≡ text.old.items ++ order_text order.now) }
{
    text.extend_from_slice(b"order:")?;
    let mut line = Line::new();
    for place in order {
        push_after_blank(text, &mut line, Some(*place as u64))?;
    }
    text.extend_from_slice(b"\n")
}
