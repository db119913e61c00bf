use super::{A, ZERO};
use four_slot_core::{CellSchedule, Turn};
use history_core::{Band, Items, Wish};
use read_document::{DocError, Key, read_value};
use read_history::{check_document, read_check};
use read_schedule::{ScheduleDocument, race_document, read_race, read_schedule, schedule_document};
use std::alloc::{AllocError, Global};
use std::test::Fail;

const NOISE: Band = Band {
    lo: 9,
    now: 8,
    hi: 7,
};

const CELL: &[u8] =
    br#"{"kind":"cell","opening":[0,0,0],"noise":[9,8,7],"writes":[[1,1,1]],"reads":1,"steps":"wr"}"#;

/// Whether the schedule is that of the document above.
fn is_of_cell(schedule: &CellSchedule<Band>) -> bool {
    schedule.opening == ZERO
        && schedule.noise == NOISE
        && schedule.writes.as_slice() == [A].as_slice()
        && schedule.reads == 1
        && schedule.steps.as_slice() == [Turn::Writer, Turn::Reader].as_slice()
}

fn is_cell_read(alloc: Global) -> bool {
    match read_schedule(alloc, CELL) {
        Ok(ScheduleDocument::Cell(schedule)) => is_of_cell(&schedule),
        _ => false,
    }
}

const CHECK: &[u8] = br#"{"kind":"check","opening":[0,0,0],"limit":9,"ops":[],"order":[7]}"#;

const RACE: &[u8] =
    br#"{"kind":"race","opening":[1,1,1],"limit":9,"scripts":[["read"],[[0,0,0]]]}"#;

fn is_history_read(alloc: Global) -> bool {
    match read_check(alloc, CHECK) {
        Ok(document) => {
            document.history.opening == ZERO
                && document.history.ops.as_slice().is_empty()
                && document.order.as_slice() == [7].as_slice()
        }
        Err(_) => false,
    }
}

/// Whether one script reads, and the other one writes.
fn are_scripts(scripts: &[Items<Wish<Band>>]) -> bool {
    match scripts {
        [first, second] => {
            first.as_slice() == [Wish::Read].as_slice()
                && second.as_slice() == [Wish::Write(ZERO)].as_slice()
        }
        _ => false,
    }
}

fn is_race_read(alloc: Global) -> bool {
    match read_race(alloc, RACE) {
        Ok(document) => {
            document.opening == A && document.limit == 9 && are_scripts(document.scripts.as_slice())
        }
        Err(_) => false,
    }
}

#[test]
fn reads_documents(rt: HostRuntime) {
    assert!(rt; is_cell_read(rt.alloc()), "a schedule");
    assert!(rt; is_history_read(rt.alloc()), "a history");
    assert!(rt; is_race_read(rt.alloc()), "a race");
}

/// The refusals of the bytes as a history, as a schedule and as a race, or none where they are accepted.
fn refusals(alloc: Global, bytes: &[u8]) -> [Option<DocError>; 3] {
    match read_value(alloc, bytes) {
        Ok(value) => [
            check_document(alloc, &value).err(),
            schedule_document(alloc, &value).err(),
            race_document(alloc, &value).err(),
        ],
        Err(refused) => [Some(refused); 3],
    }
}

/// How each of the three is told, or nothing where the bytes are accepted.
const REFUSED: &[(&[u8], &str, &str, &str)] = &[
    (CHECK, "", "kind", "kind"),
    (CELL, "kind", "", "kind"),
    (RACE, "kind", "kind", ""),
    (b"{", "not JSON", "not JSON", "not JSON"),
    (br#"{"kind":"race"}"#, "kind", "kind", "missing opening"),
    (br#"{"kind":"check"}"#, "missing opening", "kind", "kind"),
    (br#"{"kind":"board"}"#, "kind", "missing opening", "kind"),
];

/// Whether there is a refusal that is told by this text, or none where there is no text.
fn is_refused(alloc: Global, refusal: Option<DocError>, text: &str) -> Result<bool, AllocError> {
    match refusal {
        Some(refusal) => is_told(alloc, refusal, text),
        None => Ok(text.is_empty()),
    }
}

#[test]
fn refuses(rt: HostRuntime) -> Result<(), Fail> {
    for (bytes, of_history, of_schedule, of_race) in REFUSED {
        let [history, schedule, race] = refusals(rt.alloc(), bytes);
        assert!(rt;
            is_refused(rt.alloc(), history, of_history)?,
            "a history: {of_history}"
        );
        assert!(rt;
            is_refused(rt.alloc(), schedule, of_schedule)?,
            "a schedule: {of_schedule}"
        );
        assert!(rt; is_refused(rt.alloc(), race, of_race)?, "a race: {of_race}");
    }
    Ok(())
}

/// Whether the refusal is told by this text.
fn is_told(alloc: Global, refusal: DocError, text: &str) -> Result<bool, AllocError> {
    Ok(format!(in alloc; "{refusal}")?.as_str() == text)
}

const TOLD: &[(DocError, &str)] = &[
    (DocError::Long, "longer than 1048576 bytes"),
    (DocError::NotJson, "not JSON"),
    (DocError::Kind, "kind"),
    (DocError::Missing(Key::Opening), "missing opening"),
    (DocError::Shape(Key::Limit), "shape of limit"),
    (DocError::Range(Key::Ops), "range of ops"),
    (DocError::Law(Key::Order), "law of order"),
    (DocError::NoMemory, "out of memory"),
];

#[test]
fn shows_refusals(rt: HostRuntime) -> Result<(), Fail> {
    for (refusal, text) in TOLD {
        assert!(rt; is_told(rt.alloc(), *refusal, text)?, "{text}");
    }
    Ok(())
}
