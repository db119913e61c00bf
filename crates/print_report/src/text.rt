ghost use Rattle.std.specs.Prelude.{◌≡◌, ◌++◌, IfOk};
ghost use Rattle.print_report.specs.Lines.{order_text};
ghost use Rattle.print_report.specs.Text.{history_lines, race_text, text_of};

use crate::races::{push_origin, push_tasks};
use crate::slot_marks::{BoardMarks, MatrixMarks};
use crate::titled::push_history;
use crate::{Counts, Marks, Report, cell_lines, push_order, with_room};
use history_core::{Band, History, Items};
use std::alloc::{AllocError, Global};
use std::mem::forget;

/// The greatest number of tasks for which room is made before they are printed.
const MOST_TASKS: usize = 100_000;

/// The printed lines of a report, which is left unfreed: a run prints one and ends, and of a board each operation has a
/// list of slots, which go with the process.
pub fn report_text_leaking(alloc: Global, report: Report) -> Result<Items<u8>, AllocError>
    ensures { IfOk result (λ text. text ≡ text_of report) }
{
    let text = report_text(alloc, &report);
    forget(report);
    Ok(Items::new(text?))
}

/// The printed lines of a report. Where a played report has no entry for an operation, as no report of a player has it,
/// a dash stands in its place.
pub fn report_text(alloc: Global, report: &Report) -> Result<Vec<u8>, AllocError>
    ensures { IfOk result (λ v. v.items ≡ text_of report.now) }
{
    match report {
        Report::Cell(report) => cell_lines(alloc, report),
        Report::Matrix { report, titled } => {
            played_text(
                alloc,
                &MatrixMarks { report },
                &report.history,
                *titled,
                report.order.as_slice(),
            )
        }
        Report::Board { report, titled } => {
            played_text(
                alloc,
                &BoardMarks { report },
                &report.history,
                *titled,
                report.order.as_slice(),
            )
        }
        Report::Race { tasks, broken } => race_text(alloc, tasks.as_slice(), *broken),
    }
}

/// The lines of a played report.
fn played_text<M: Marks>(
    alloc: Global,
    marks: &M,
    history: &History<Band>,
    titled: bool,
    order: &[usize],
) -> Result<Vec<u8>, AllocError>
    ensures { IfOk result (λ v. v.items ≡ history_lines (M.mark marks.now) history.now titled ++ order_text order.now) }
{
    let mut text = with_room(alloc, history.ops.as_slice().len(), order.len())?;
    push_history(&mut text, marks, history, titled)?;
    push_order(&mut text, order)?;
    Ok(text)
}

/// A line for each task of a race, and that of its origins.
fn race_text(
    alloc: Global,
    tasks: &[Counts],
    broken: Option<(usize, usize)>,
) -> Result<Vec<u8>, AllocError>
    ensures { IfOk result (λ v. v.items ≡ race_text tasks.now broken) }
{
    let mut text = Vec::with_capacity(alloc, 64 * tasks.len().min(MOST_TASKS))?;
    push_tasks(&mut text, tasks)?;
    push_origin(&mut text, broken)?;
    Ok(text)
}
