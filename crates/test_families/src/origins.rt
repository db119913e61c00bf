//! The check of logs that a program kept itself.
use board_live::Posted;
use board_tasks::{Entry, Origin, Reply, check_origin};
use board_teams::point;
use history_core::{Band, Wish};
use matrix_core::Stamp;
use std::alloc::{AllocError, Global};
use std::test::Fail;

/// The record that is this number alone. (Macros, so that the rows are constants.)
macro_rules! record {
    ($number:expr) => {
        Band {
            lo: $number,
            now: $number,
            hi: $number,
        }
    };
}

macro_rules! stamp {
    ($tag:expr, $writer:expr) => {
        Stamp {
            tag: $tag,
            writer: $writer,
        }
    };
}

macro_rules! posted {
    ($tag:expr, $writer:expr, $number:expr) => {
        Posted {
            stamp: stamp!($tag, $writer),
            item: record!($number),
        }
    };
}

macro_rules! wrote {
    ($tag:expr, $writer:expr, $number:expr) => {
        Entry {
            wish: Wish::Write(record!($number)),
            reply: Reply::Written(stamp!($tag, $writer)),
        }
    };
}

macro_rules! saw {
    ($tag:expr, $writer:expr, $number:expr) => {
        Entry {
            wish: Wish::Read,
            reply: Reply::Seen(posted!($tag, $writer, $number)),
        }
    };
}

macro_rules! ended {
    ($tag:expr, $writer:expr, $number:expr) => {
        Entry {
            wish: Wish::Write(record!(7)),
            reply: Reply::Ended(posted!($tag, $writer, $number)),
        }
    };
}

/// Two logs, whose opening is 0, and the verdict on them.
struct Row {
    shows: &'static str,
    first: &'static [Entry<Band>],
    second: &'static [Entry<Band>],
    origin: Origin,
}

macro_rules! row {
    ($shows:expr, $first:expr, $second:expr, $origin:expr) => {
        Row {
            shows: $shows,
            first: $first,
            second: $second,
            origin: $origin,
        }
    };
}

macro_rules! broken {
    ($task:expr, $call:expr) => {
        Origin::Broken {
            task: $task,
            call: $call,
        }
    };
}

const TWO: &[Entry<Band>] = &[wrote!(1, 0, 5), wrote!(2, 0, 6)];

const OTHER_WISH: Entry<Band> = Entry {
    wish: Wish::Read,
    reply: Reply::Written(stamp!(1, 0)),
};

const ROWS: &[Row] = &[
    row!("no call", &[], &[], Origin::Sound),
    row!("the opening", &[saw!(0, 0, 0)], &[], Origin::Sound),
    row!(
        "two writes",
        TWO,
        &[saw!(1, 0, 5), ended!(2, 0, 6)],
        Origin::Sound
    ),
    row!("another opening", &[saw!(0, 0, 1)], &[], broken!(0, 1)),
    row!("another item", TWO, &[saw!(1, 0, 6)], broken!(1, 1)),
    row!("another tag", TWO, &[ended!(3, 0, 6)], broken!(1, 1)),
    row!("another writer", TWO, &[saw!(1, 1, 5)], broken!(1, 1)),
    row!("no such log", TWO, &[saw!(1, 2, 5)], broken!(1, 1)),
    row!(
        "two writes of one stamp",
        &[wrote!(1, 0, 5), wrote!(1, 0, 6)],
        &[saw!(1, 0, 6)],
        broken!(0, 2)
    ),
    row!(
        "the stamp of another task",
        &[wrote!(1, 1, 5)],
        &[],
        broken!(0, 1)
    ),
    row!(
        "the stamp of the opening",
        &[wrote!(0, 0, 0)],
        &[],
        broken!(0, 1)
    ),
    row!("a reply to another wish", &[OTHER_WISH], &[], broken!(0, 1)),
    row!(
        "what is out of order before what has no origin",
        &[saw!(3, 1, 7)],
        &[wrote!(2, 1, 6), wrote!(1, 1, 5)],
        broken!(1, 2)
    ),
    row!(
        "stamps that fall in one log",
        TWO,
        &[saw!(2, 0, 6), saw!(1, 0, 5)],
        broken!(1, 2)
    ),
    row!(
        "stamps that fall in both",
        &[wrote!(2, 0, 6), wrote!(1, 0, 5)],
        &[saw!(2, 0, 6), saw!(1, 0, 5)],
        broken!(0, 2)
    ),
];

fn verdict(
    alloc: Global,
    first: &[Entry<Band>],
    second: &[Entry<Band>],
) -> Result<Origin, AllocError> {
    let mut logs = Vec::new(alloc);
    logs.push(Vec::from_slice(alloc, first)?)?;
    logs.push(Vec::from_slice(alloc, second)?)?;
    Ok(check_origin(point(0), logs.as_slice()))
}

/// The first row with another verdict.
fn wrong(alloc: Global, rows: &[Row]) -> Result<Option<&'static str>, AllocError> {
    for row in rows {
        if verdict(alloc, row.first, row.second)? != row.origin {
            return Ok(Some(row.shows));
        }
    }
    Ok(None)
}

#[test]
fn verdicts_on_short_logs(rt: HostRuntime) -> Result<(), Fail> {
    assert_eq!(rt; wrong(rt.alloc(), ROWS)?, None);
    Ok(())
}

/// A thousand writes, and a read of each.
fn long(alloc: Global) -> Result<[Vec<Entry<Band>>; 2], AllocError> {
    let mut first = Vec::new(alloc);
    let mut second = Vec::new(alloc);
    for k in 0..1_000 {
        first.push(wrote!(2 * k + 1, 0, k))?;
        second.push(saw!(2 * k + 1, 0, k))?;
    }
    Ok([first, second])
}

/// The verdict on long logs, and on the same with a read of a record that nobody wrote.
fn verdicts_on_long(alloc: Global) -> Result<[Origin; 2], AllocError> {
    let [first, mut second] = long(alloc)?;
    let whole = verdict(alloc, &first, &second)?;
    second.push(saw!(2_000, 0, 999))?;
    Ok([whole, verdict(alloc, &first, &second)?])
}

#[test]
fn records_are_found_in_long_logs(rt: HostRuntime) -> Result<(), Fail> {
    assert_eq!(rt;
        verdicts_on_long(rt.alloc())?,
        [Origin::Sound, broken!(1, 1_001)]
    );
    Ok(())
}
