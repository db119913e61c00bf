ghost use Rattle.std.specs.Prelude.{◌≡◌, IfOk};
ghost use Rattle.fsr_play_answers.specs.Cells.{AnswersCell, printed};
ghost use Rattle.program_runs.specs.Answers.{GivesReply};

use four_slot_core::{CellReport, CellSchedule};
use four_slot_play::play_cell;
use history_core::{Band, Items};
use print_report::cell_lines;
use program_runs::{Answer, Fault};
use program_streams::Exit;
use std::alloc::{AllocError, Global};

/// The report of a schedule.
pub fn cell(alloc: Global, schedule: &CellSchedule<Band>) -> Result<Answer, Fault>
    ensures { GivesReply (AnswersCell schedule.now) result }
{
    let report = play_cell(alloc, schedule)?;
    let answer = print(alloc, &report)?;
    Ok(answer)
}

/// The text of a report, with the status of one that was played.
fn print(alloc: Global, report: &CellReport<Band>) -> Result<Answer, AllocError>
    ensures { IfOk result (λ answer. answer ≡ printed report.now) }
{
    let text = Items::new(cell_lines(alloc, report)?);
    let status = Exit::Sound.status();
    Ok(Answer { text, status })
}
