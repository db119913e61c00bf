//! From bytes to a document.
ghost use Rattle.std.specs.Prelude.{IfOk};
ghost use Rattle.serde_json.specs.View.{view};
ghost use Rattle.read_document.specs.Refusals.{Gives};
ghost use Rattle.read_schedule.specs.Document.{race_document, race_of, schedule_document, schedule_of};
ghost use Rattle.read_schedule.specs.Players.{CanBePlayed, CanRace};

use crate::board::board_in;
use crate::matrix::matrix_in;
use crate::race::race_in;
use crate::{RaceDocument, ScheduleDocument, cell_in};
use read_document::{DocError, is_kind, read_value};
use serde_json::Value;
use std::alloc::Global;

/// The schedule that the bytes stand for, or the first refusal with its first key. It is `read_value` and then
/// `schedule_document`; the value in between is freed.
#[tactic(auto, unfolding(crate::specs::Document::schedule_of))]
pub fn read_schedule(alloc: Global, bytes: &[u8]) -> Result<ScheduleDocument, DocError>
    ensures document { Gives (λ d. d) result (schedule_of bytes.now) }
    ensures playable { IfOk result CanBePlayed }
{
    let value = read_value(alloc, bytes)?;
    schedule_document(alloc, &value)
}

/// The schedule that a value stands for, which its caller keeps.
pub fn schedule_document(alloc: Global, value: &Value) -> Result<ScheduleDocument, DocError>
    ensures document { Gives (λ d. d) result (schedule_document (view value.now)) }
    ensures playable { IfOk result CanBePlayed }
{
    if is_kind(value, "cell") {
        let schedule = cell_in(alloc, value)?;
        Ok(ScheduleDocument::Cell(schedule))
    } else if is_kind(value, "matrix") {
        matrix_in(alloc, value)
    } else if is_kind(value, "board") {
        board_in(alloc, value)
    } else {
        Err(DocError::Kind)
    }
}

/// The race that the bytes stand for, likewise.
#[tactic(auto, unfolding(crate::specs::Document::race_of))]
pub fn read_race(alloc: Global, bytes: &[u8]) -> Result<RaceDocument, DocError>
    ensures document { Gives (λ d. d) result (race_of bytes.now) }
    ensures playable { IfOk result (λ d. CanRace d.opening d.limit d.scripts) }
{
    let value = read_value(alloc, bytes)?;
    race_document(alloc, &value)
}

/// The race that a value stands for, which its caller keeps.
pub fn race_document(alloc: Global, value: &Value) -> Result<RaceDocument, DocError>
    ensures document { Gives (λ d. d) result (race_document (view value.now)) }
    ensures playable { IfOk result (λ d. CanRace d.opening d.limit d.scripts) }
{
    if is_kind(value, "race") {
        race_in(alloc, value)
    } else {
        Err(DocError::Kind)
    }
}
