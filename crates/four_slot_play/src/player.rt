//! The player of cell schedules: which operations a schedule has is read off its steps, and what they saw off a cell
//! that makes the steps' events.

ghost use Rattle.std.specs.Prelude.{IfErr, IfOk};
ghost use Rattle.four_slot_core.specs.Play.{IsRefusal};
ghost use Rattle.four_slot_core.specs.Play.{cell_span};
ghost use Rattle.four_slot_play.specs.CellReports.{IsCellReport};

use four_slot_core::{CellReport, CellSchedule};
use history_core::PlayError;
use history_core::laws::order_by_number;
use report::assemble;
use std::alloc::Global;
use steps::first_overrun;

mod order;
mod report;
mod run;
mod steps;

/// Plays a schedule of a cell, in time and memory proportional to its steps. A schedule with a step that no operation
/// is left for is refused before any memory is taken, by the position of the first such step.
pub fn play_cell<R: Copy>(alloc: Global, s: &CellSchedule<R>) -> Result<CellReport<R>, PlayError>
    ensures report { IfOk result (IsCellReport s.now) }
    ensures refused { IfErr result (IsRefusal (cell_span s.now)) }
{
    let steps = s.steps.as_slice();
    let writes = s.writes.as_slice();
    if let Some(position) = first_overrun(steps, writes, s.reads) {
        return Err(PlayError::TooManySteps { position });
    }
    // By this law the order keeps precedence.
    order_by_number::<R>();
    match assemble(alloc, s.opening, s.noise, steps, writes) {
        Ok(report) => Ok(report),
        Err(_) => Err(PlayError::NoMemory),
    }
}
