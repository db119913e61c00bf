ghost use Rattle.std.specs.Prelude.{◌≡◌, IfOk};
ghost use Rattle.program_runs.specs.Answers.{GivesReply};
ghost use Rattle.read_document.specs.Refusals.{Gives as Reads};
ghost use Rattle.read_log.specs.Log.{CanBeSearched};
ghost use Rattle.matrix_core.specs.Runs.{CanPlay};
ghost use Rattle.picture_answers.specs.Answers.{DrawsBoard, DrawsCell, DrawsCheck, AnswersLog};
ghost use Rattle.picture_answers.specs.Answers.{DrawsMatrix, DrawsSchedule};
ghost use Rattle.picture_answers.specs.Answers.{CanBeShown, document_of, drawn, exit_of};
ghost use Rattle.picture_answers.specs.Answers.{IsPictureAnswer, other_in, shown_in};
ghost use Rattle.read_schedule.specs.Players.{CanBePlayed};
ghost use Rattle.serde_json.specs.View.{view};

use crate::scenes::{board_scene, cell_scene, check_scene, log_scene, matrix_scene};
use composed_play::play_board;
use four_slot_core::CellSchedule;
use four_slot_play::play_cell;
use history_core::{Band, History, Items};
use matrix_core::{BoardSchedule, MatrixSchedule};
use matrix_play::play_matrix;
use print_picture::{Finding, Scene, picture_text};
use program_runs::{Answer, Fault};
use program_streams::Exit;
use read_document::{DocError, read_value};
use read_history::{CheckDocument, check_document};
use read_log::{lines_in, log_document, search_log};
use read_schedule::{ScheduleDocument, schedule_document};
use serde_json::Value;
use std::alloc::{AllocError, Global};
use std::mem::forget;

/// What a picture is drawn of.
#[derive(Drop)]
pub enum Shown {
    Check(CheckDocument),
    /// A log, and the lines on which its operations stand, as far as they are known.
    Log {
        history: History<Band>,
        lines: Items<usize>,
    },
    Schedule(ScheduleDocument),
}

/// The picture of the document that the bytes stand for.
pub fn answer(alloc: Global, bytes: &[u8]) -> Result<Answer, Fault>
    ensures { GivesReply (IsPictureAnswer bytes.now) result }
{
    match read(alloc, bytes)? {
        Shown::Check(document) => check(alloc, document),
        Shown::Log { history, lines } => log(alloc, history, lines),
        Shown::Schedule(document) => play(alloc, &document),
    }
}

/// The document that the bytes stand for. The JSON value that they are is left unfreed: a run reads one document and
/// ends, and the value goes with the process.
#[tactic(auto, unfolding(crate::specs::Answers::document_of))]
fn read(alloc: Global, bytes: &[u8]) -> Result<Shown, DocError>
    ensures document { Reads (λ d. d) result (document_of bytes.now) }
    ensures playable { IfOk result CanBeShown }
{
    let value = read_value(alloc, bytes)?;
    let document = shown_in(alloc, &value);
    forget(value);
    document
}

fn shown_in(alloc: Global, value: &Value) -> Result<Shown, DocError>
    ensures document { Reads (λ d. d) result (shown_in (view value.now)) }
    ensures playable { IfOk result CanBeShown }
{
    match check_document(alloc, value) {
        Ok(document) => Ok(Shown::Check(document)),
        Err(DocError::Kind) => other_in(alloc, value),
        Err(refusal) => Err(refusal),
    }
}

/// A log or a schedule.
fn other_in(alloc: Global, value: &Value) -> Result<Shown, DocError>
    ensures document { Reads (λ d. d) result (other_in (view value.now)) }
    ensures playable { IfOk result CanBeShown }
{
    match log_document(alloc, value) {
        Ok(history) => {
            let lines = Items::new(lines_in(alloc, value)?);
            Ok(Shown::Log { history, lines })
        }
        Err(DocError::Kind) => match schedule_document(alloc, value) {
            Ok(document) => Ok(Shown::Schedule(document)),
            Err(refusal) => Err(refusal),
        },
        Err(refusal) => Err(refusal),
    }
}

fn play(alloc: Global, document: &ScheduleDocument) -> Result<Answer, Fault>
    requires { CanBePlayed document.now }
    ensures { GivesReply (DrawsSchedule document.now) result }
{
    match document {
        ScheduleDocument::Cell(schedule) => cell(alloc, schedule),
        ScheduleDocument::Matrix { schedule, .. } => matrix(alloc, schedule),
        ScheduleDocument::Board { schedule, .. } => board(alloc, schedule),
    }
}

fn check(alloc: Global, document: CheckDocument) -> Result<Answer, Fault>
    ensures { GivesReply (DrawsCheck document) result }
{
    let scene = check_scene(alloc, document.history, document.order)?;
    let answer = draw(alloc, &scene)?;
    Ok(answer)
}

fn log(alloc: Global, history: History<Band>, lines: Items<usize>) -> Result<Answer, Fault>
    requires { CanBeSearched history }
    ensures { GivesReply (AnswersLog history lines) result }
{
    let search = search_log(alloc, &history)?;
    let scene = log_scene(alloc, history, lines, search)?;
    let answer = draw(alloc, &scene)?;
    Ok(answer)
}

fn cell(alloc: Global, schedule: &CellSchedule<Band>) -> Result<Answer, Fault>
    ensures { GivesReply (DrawsCell schedule.now) result }
{
    let report = play_cell(alloc, schedule)?;
    let scene = cell_scene(alloc, schedule, report)?;
    let answer = draw(alloc, &scene)?;
    Ok(answer)
}

fn matrix(alloc: Global, schedule: &MatrixSchedule<Band>) -> Result<Answer, Fault>
    requires { CanPlay schedule.now.terms }
    ensures { GivesReply (DrawsMatrix schedule.now) result }
{
    let report = play_matrix(alloc, schedule)?;
    let scene = matrix_scene(alloc, report)?;
    let answer = draw(alloc, &scene)?;
    Ok(answer)
}

fn board(alloc: Global, schedule: &BoardSchedule<Band>) -> Result<Answer, Fault>
    requires { CanPlay schedule.now.terms }
    ensures { GivesReply (DrawsBoard schedule.now) result }
{
    let report = play_board(alloc, schedule)?;
    let scene = board_scene(alloc, schedule, report)?;
    let answer = draw(alloc, &scene)?;
    Ok(answer)
}

/// The picture of a scene, with its status.
fn draw(alloc: Global, scene: &Scene) -> Result<Answer, AllocError>
    ensures { IfOk result (λ answer. answer ≡ drawn scene.now) }
{
    let status = exit_of(scene.finding).status();
    let text = Items::new(picture_text(alloc, scene)?);
    Ok(Answer { text, status })
}

fn exit_of(finding: Finding) -> Exit
    ensures { result ≡ exit_of finding }
{
    match finding {
        Finding::Lawful => Exit::Sound,
        Finding::Broken(_) | Finding::NoOrder(_) => Exit::Unsound,
    }
}
