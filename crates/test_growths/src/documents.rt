ghost use Rattle.std.specs.Prelude.{IfOk};
ghost use Rattle.read_schedule.specs.Players.{CanBePlayed};

use history_core::PlayError;
use read_document::DocError;
use read_history::{CheckDocument, read_check};
use read_schedule::{RaceDocument, ScheduleDocument, read_race, read_schedule};
use std::alloc::{AllocError, Global};

/// A write, and a read of its record.
const CHECK: &str =
    r#"{"kind":"check","opening":[0,0,0],"limit":9,"ops":[{"who":0,"kind":"write","begin":0,"end":4,"record":[1,1,1]},
        {"who":1,"kind":"read","begin":5,"end":9,"record":[1,1,1]}],"order":[0,1]}"#;

/// A write, and then a read.
const CELL: &str =
    r#"{"kind":"cell","opening":[0,0,0],"noise":[9,8,7],"writes":[[1,1,1]],"reads":1,"steps":"wwwwwrrrrr"}"#;

/// Two writes while a reader stands in its slot.
const STALLED: &str =
    r#"{"kind":"cell","opening":[0,0,0],"noise":[9,8,7],"writes":[[1,1,1],[2,2,2],[3,3,3]],
        "reads":2,"steps":"wwwwwrrrrwwwwwwwwwwrrrrrr"}"#;

/// Two writes that meet, and then a read.
const MEETING: &str =
    r#"{"kind":"matrix","opening":[0,0,0],"limit":9,"plans":[[[1,1,1],"read"],[[2,2,2]]],"steps":[0,1,0,1,0,0]}"#;

/// A write that reached one process of three, and two reads that hand it on.
const HANDED_ON: &str =
    r#"{"kind":"matrix","opening":[0,0,0],"limit":9,"plans":[[[1,1,1]],["read"],["read"]],
        "steps":[0,0,0,1,1,1,1,2,2,2,2]}"#;

/// A write after the last tag.
const REFUSED: &str =
    r#"{"kind":"matrix","opening":[0,0,0],"limit":1,"plans":[[[1,1,1]],[[2,2,2]]],"steps":[0,0,1,1]}"#;

/// A term of one write, and then another.
const TERMS: &str =
    r#"{"kind":"matrix","opening":[0,0,0],"terms":[{"limit":1,"plans":[[[1,1,1]],[]],"steps":[0,0]},
        {"limit":1,"plans":[[],[[2,2,2]]],"steps":[1,1]}]}"#;

/// A write over a composed board, and then a read.
const BOARD: &str =
    r#"{"kind":"board","opening":[0,0,0],"noise":[9,8,7],"limit":9,"plans":[[[1,1,1]],["read"]],
        "steps":[0,0,0,0,0,0,0,0,0,0,1,1,1,1,1,1,1,1,1,1]}"#;

/// A term of one write over a composed board, and then one of another.
const BOARD_TERMS: &str = r#"{"kind":"board","opening":[0,0,0],"noise":[9,8,7],"terms":[
        {"limit":1,"plans":[[[1,1,1]],[]],"steps":[0,0,0,0,0,0,0,0,0,0]},
        {"limit":1,"plans":[[],[[2,2,2]]],"steps":[1,1,1,1,1,1,1,1,1,1]}]}"#;

/// A task that writes and reads, and one that reads.
const RACE: &str =
    r#"{"kind":"race","opening":[0,0,0],"limit":9,"scripts":[[[1,1,1],"read"],["read"]]}"#;

/// Why a call has no answer.
#[derive(Clone, Copy, Debug, PartialEq, Eq)]
pub enum Stopped {
    NoSuchCall,
    NoMemory,
}

impl From<PlayError> for Stopped {
    fn from(error: PlayError) -> Stopped {
        match error {
            PlayError::NoMemory => Stopped::NoMemory,
            PlayError::TooManySteps { .. } => Stopped::NoSuchCall,
        }
    }
}

impl From<AllocError> for Stopped {
    fn from(_error: AllocError) -> Stopped {
        Stopped::NoMemory
    }
}

impl From<DocError> for Stopped {
    fn from(error: DocError) -> Stopped {
        match error {
            DocError::NoMemory => Stopped::NoMemory,
            _ => Stopped::NoSuchCall,
        }
    }
}

/// The document of a history.
pub fn check(alloc: Global) -> Result<CheckDocument, Stopped> {
    let document = read_check(alloc, CHECK.as_bytes())?;
    Ok(document)
}

/// The document of a race.
pub fn race(alloc: Global) -> Result<RaceDocument, Stopped> {
    let document = read_race(alloc, RACE.as_bytes())?;
    Ok(document)
}

/// The schedule of this name. It can be played.
pub fn schedule(alloc: Global, name: &str) -> Result<ScheduleDocument, Stopped>
    ensures { IfOk result CanBePlayed }
{
    let text = match name {
        "cell" => CELL,
        "stalled" => STALLED,
        "meeting" => MEETING,
        "handed_on" => HANDED_ON,
        "refused" => REFUSED,
        "terms" => TERMS,
        "board" => BOARD,
        "board_terms" => BOARD_TERMS,
        _ => return Err(Stopped::NoSuchCall),
    };
    match read_schedule(alloc, text.as_bytes()) {
        Ok(document) => Ok(document),
        Err(DocError::NoMemory) => Err(Stopped::NoMemory),
        Err(_) => Err(Stopped::NoSuchCall),
    }
}
