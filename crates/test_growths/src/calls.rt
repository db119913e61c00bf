use crate::documents::{Stopped, check, race, schedule};
use crate::print;
use composed_play::play_board;
use four_slot_play::play_cell;
use history_core::Items;
use matrix_play::{MatrixCore, play_matrix};
use print_report::{Counts, Report, report_text};
use read_schedule::ScheduleDocument;
use std::alloc::Global;
use std::io;

/// What the tasks of the race did.
const TASKS: [Counts; 2] = [
    Counts {
        writes: 1,
        reads: 1,
        refused: 0,
    },
    Counts {
        writes: 0,
        reads: 1,
        refused: 0,
    },
];

pub fn read(rt: &impl Print, alloc: Global, on: &str) -> io::Result<()> {
    match on {
        "check" => match check(alloc) {
            Ok(document) => print::check(rt, &document),
            Err(why) => print::stopped(rt, why),
        },
        "race" => match race(alloc) {
            Ok(document) => print::race(rt, &document),
            Err(why) => print::stopped(rt, why),
        },
        _ => match schedule(alloc, on) {
            Ok(document) => print::schedule(rt, &document),
            Err(why) => print::stopped(rt, why),
        },
    }
}

pub fn play(rt: &impl Print, alloc: Global, on: &str) -> io::Result<()> {
    match played(alloc, on) {
        Ok(Report::Cell(report)) => print::cell_report(rt, &report),
        Ok(Report::Matrix { report, .. }) => print::matrix_report(rt, &report),
        Ok(Report::Board { report, .. }) => print::board_report(rt, &report),
        Ok(Report::Race { tasks, broken }) => println!(rt; "{:?} {broken:?}", tasks.as_slice()),
        Err(why) => print::stopped(rt, why),
    }
}

/// A matrix of so many processes.
pub fn new_matrix(rt: &impl Print, alloc: Global, on: &str) -> io::Result<()> {
    let n = match on {
        "2" => 2,
        "16" => 16,
        _ => return print::stopped(rt, Stopped::NoSuchCall),
    };
    match MatrixCore::new(alloc, n, 9, 0u64) {
        Ok(_) => println!(rt; "made"),
        Err(_) => print::stopped(rt, Stopped::NoMemory),
    }
}

pub fn text(rt: &impl Print, alloc: Global, on: &str) -> io::Result<()> {
    match text_of(alloc, on) {
        Ok(text) => print::lines(rt, text.as_slice()),
        Err(why) => print::stopped(rt, why),
    }
}

/// The report of the schedule of this name.
fn played(alloc: Global, on: &str) -> Result<Report, Stopped> {
    match schedule(alloc, on)? {
        ScheduleDocument::Cell(schedule) => {
            let report = play_cell(alloc, &schedule)?;
            Ok(Report::Cell(report))
        }
        ScheduleDocument::Matrix { schedule, titled } => {
            let report = play_matrix(alloc, &schedule)?;
            Ok(Report::Matrix { report, titled })
        }
        ScheduleDocument::Board { schedule, titled } => {
            let report = play_board(alloc, &schedule)?;
            Ok(Report::Board { report, titled })
        }
    }
}

/// The report of a race that isn't run: it says that every call of its two tasks was made.
fn raced(alloc: Global) -> Result<Report, Stopped> {
    let tasks = Items::new(TASKS.to_vec(alloc)?);
    Ok(Report::Race {
        tasks,
        broken: None,
    })
}

fn text_of(alloc: Global, on: &str) -> Result<Vec<u8>, Stopped> {
    let report = if on == "race" {
        raced(alloc)?
    } else {
        played(alloc, on)?
    };
    report_text(alloc, &report).map_err(|_| Stopped::NoMemory)
}
