//! Played schedules: the report of each, printed.
ghost use Rattle.std.specs.Prelude.{◌≡◌, IfOk};
ghost use Rattle.program_runs.specs.Answers.{GivesReply};
ghost use Rattle.read_document.specs.Refusals.{Gives as Reads};
ghost use Rattle.matrix_core.specs.Runs.{CanPlay};
ghost use Rattle.read_schedule.specs.Document.{schedule_of};
ghost use Rattle.read_schedule.specs.Players.{CanBePlayed};
ghost use Rattle.fsr_play_answers.specs.Play.{AnswersBoard, AnswersMatrix, IsPlayAnswer, printed};

use crate::cell_answer::cell;
use composed_play::play_board;
use history_core::Band;
use matrix_core::{BoardSchedule, MatrixSchedule};
use matrix_play::play_matrix;
use print_report::{Report, report_text_leaking};
use program_runs::{Answer, Fault};
use program_streams::Exit;
use read_document::{DocError, read_value};
use read_schedule::{ScheduleDocument, schedule_document};
use std::alloc::{AllocError, Global};
use std::mem::forget;

/// The answer of the command `play` to the bytes of a document: the report of its schedule.
pub fn play(alloc: Global, bytes: &[u8]) -> Result<Answer, Fault>
    ensures { GivesReply (IsPlayAnswer bytes.now) result }
{
    match read(alloc, bytes)? {
        ScheduleDocument::Cell(schedule) => cell(alloc, &schedule),
        ScheduleDocument::Matrix { schedule, titled } => matrix(alloc, &schedule, titled),
        ScheduleDocument::Board { schedule, titled } => board(alloc, &schedule, titled),
    }
}

/// The schedule that the bytes stand for. The JSON value that they are is left unfreed: a run reads one document and
/// ends, and the value goes with the process.
#[tactic(auto, unfolding(read_schedule::specs::Document::schedule_of))]
fn read(alloc: Global, bytes: &[u8]) -> Result<ScheduleDocument, DocError>
    ensures document { Reads (λ d. d) result (schedule_of bytes.now) }
    ensures playable { IfOk result CanBePlayed }
{
    let value = read_value(alloc, bytes)?;
    let document = schedule_document(alloc, &value);
    forget(value);
    document
}

/// The report of a matrix's schedule, with the terms told where it is titled.
fn matrix(alloc: Global, schedule: &MatrixSchedule<Band>, titled: bool) -> Result<Answer, Fault>
    requires { CanPlay schedule.now.terms }
    ensures { GivesReply (AnswersMatrix schedule.now titled) result }
{
    let report = play_matrix(alloc, schedule)?;
    let answer = print(alloc, Report::Matrix { report, titled })?;
    Ok(answer)
}

/// The report of a composed board's schedule, likewise.
fn board(alloc: Global, schedule: &BoardSchedule<Band>, titled: bool) -> Result<Answer, Fault>
    requires { CanPlay schedule.now.terms }
    ensures { GivesReply (AnswersBoard schedule.now titled) result }
{
    let report = play_board(alloc, schedule)?;
    let answer = print(alloc, Report::Board { report, titled })?;
    Ok(answer)
}

/// The text of the report of a schedule, with the status of one that was played.
fn print(alloc: Global, report: Report) -> Result<Answer, AllocError>
    ensures { IfOk result (λ answer. answer ≡ printed report) }
{
    let text = report_text_leaking(alloc, report)?;
    let status = Exit::Sound.status();
    Ok(Answer { text, status })
}
