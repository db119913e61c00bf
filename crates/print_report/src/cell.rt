//! The lines of the report of a four-slot register.
ghost use Rattle.std.specs.Prelude.{◌≡◌, [], IfOk};
ghost use Rattle.print_report.specs.Lines.{cell_lines};

use crate::lines::{push_lines_from, push_order};
use four_slot_core::CellReport;
use history_core::Band;
use std::alloc::{AllocError, Global};

/// The greatest number of operations for which room is made before they are printed.
const MOST_ROOM: usize = 100_000;

/// The printed lines of a report. Where it has no entry for an operation, as no report of a player has
/// it, a dash stands in its place.
pub fn cell_lines(alloc: Global, report: &CellReport<Band>) -> Result<Vec<u8>, AllocError>
    ensures { IfOk result (λ v. v.items ≡ cell_lines report.now) }
{
    let ops = report.history.ops.as_slice();
    let order = report.order.as_slice();
    let mut text = with_room(alloc, ops.len(), order.len())?;
    push_lines_from(&mut text, report, ops, 0)?;
    push_order(&mut text, order)?;
    Ok(text)
}

/// No text yet, with room for the lines of most reports of this size.
pub fn with_room(alloc: Global, operations: usize, listed: usize) -> Result<Vec<u8>, AllocError>
    ensures { IfOk result (λ v. v.items ≡ []) }
{
    let lines = 64 * operations.min(MOST_ROOM);
    Vec::with_capacity(alloc, lines + 6 * listed.min(MOST_ROOM))
}
