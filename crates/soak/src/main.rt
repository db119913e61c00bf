//! Runs the running cells and boards for a time, and looks at each record that is read. `list` names what is run,
//! `run MINUTES` runs it, and `planted` looks for a planted bug. A run ends with status 1 at the first torn, older or
//! foreign record, and with status 6 where a thread can't start.
#![tactic(auto)]

use board_live::Posted;
use cell_contract::{Cell, SharedFamily};
use cell_four_slot::FourSlotCell;
use cell_triple::TripleCell;
use family_four_slot::FourSlotFamily;
use family_triple::TripleFamily;
use program_streams::{Exit, can_start};
use soak_rounds::record::{Record, Shared};
use soak_rounds::{Finding, Tally, exit, pair, planted};
use std::alloc::{AllocError, Global};
use std::io;
use std::process::ExitCode;
use std::rt::Clock;
use std::thread::Threads;
use std::time::Instant;

const FOUR_SLOT: &str = "four_slot";

const TRIPLE: &str = "triple";

/// A board of 16 tasks needs as many threads besides the caller's.
const THREADS: usize = 15;

/// The planted register is given a minute, about.
const PLANTED_ROUNDS: u64 = 500;

fn main(rt: HostRuntime) -> ExitCode {
    let ended = match words(&rt) {
        Ok(words) => command(&rt, rt.alloc(), words.as_slice()),
        Err(e) => Err(e),
    };
    let exit = exit(&ended);
    if ended.is_err() {
        let _told = eprintln!(&rt; "soak: {}", why(exit));
    }
    ExitCode::from(exit.status())
}

/// Why a soak can't go on.
fn why(exit: Exit) -> &'static str {
    match exit {
        Exit::NoMemory => "out of memory",
        Exit::NoThread => "a thread can't start",
        _ => "a stream or the clock failed",
    }
}

/// Where a thread can't start, calls that were to run at once would run in turn, and show nothing.
fn see_threads(rt: &impl Threads) -> io::Result<()> {
    if can_start(rt, THREADS) {
        Ok(())
    } else {
        Err(io::ErrorKind::WouldBlock.into())
    }
}

fn words(rt: &HostRuntime) -> io::Result<Vec<String>> {
    Ok(std::env::args(rt)?.collect(rt.alloc())?)
}

fn command<R: Clock + Print + Threads + Sync>(
    rt: &R,
    alloc: Global,
    words: &[String],
) -> io::Result<Option<Finding>> {
    match words {
        [_, command, minutes] if command.as_str() == "run" => {
            see_threads(rt)?;
            let minutes = minutes.as_str().parse::<u64>().unwrap_or(1);
            all(rt, alloc, minutes.saturating_mul(60_000_000_000) / 6)
        }
        [_, command] if command.as_str() == "planted" => {
            see_threads(rt)?;
            let tally = planted::rounds(rt, alloc, PLANTED_ROUNDS)?;
            say(rt, "planted", 4096, 1, tally)?;
            Ok(tally.found)
        }
        _ => {
            for name in [FOUR_SLOT, TRIPLE] {
                for bytes in [24, 256, 4096] {
                    println!(rt;
                        "{name}, records of {bytes} bytes: one writer and one reader; boards of 2, 4 and 16 tasks"
                    )?;
                }
            }
            Ok(None)
        }
    }
}

/// Runs each cell at each size for so many nanoseconds.
fn all<R: Clock + Print + Threads + Sync>(
    rt: &R,
    alloc: Global,
    nanos: u64,
) -> io::Result<Option<Finding>> {
    for name in [FOUR_SLOT, TRIPLE] {
        for bytes in [24, 256, 4096] {
            let found = cell(rt, alloc, name, bytes, nanos)?;
            if found.is_some() {
                return Ok(found);
            }
        }
    }
    Ok(None)
}

/// Runs the cell of this name over records of so many bytes.
fn cell<R: Clock + Print + Threads + Sync>(
    rt: &R,
    alloc: Global,
    name: &str,
    bytes: u64,
    nanos: u64,
) -> io::Result<Option<Finding>> {
    match bytes {
        24 => of_words::<R, [u64; 3]>(rt, alloc, name, bytes, nanos),
        256 => of_words::<R, [u64; 32]>(rt, alloc, name, bytes, nanos),
        _ => of_words::<R, [u64; 512]>(rt, alloc, name, bytes, nanos),
    }
}

/// (A call that names a cell's type is dear to prove, so that one stands here for all sizes.)
fn of_words<R: Clock + Print + Threads + Sync, W: Shared + Drop>(
    rt: &R,
    alloc: Global,
    name: &str,
    bytes: u64,
    nanos: u64,
) -> io::Result<Option<Finding>> {
    match name {
        "four_slot" => {
            soak::<R, W, FourSlotCell<_>, FourSlotFamily<_>>(rt, alloc, name, bytes, nanos)
        }
        _ => soak::<R, W, TripleCell<_>, TripleFamily<_>>(rt, alloc, name, bytes, nanos),
    }
}

/// Boards of so many tasks, and what their rounds gave.
#[derive(Clone, Copy)]
struct Boards {
    tasks: usize,
    tally: Tally,
}

impl Boards {
    fn of(tasks: usize) -> Boards {
        Boards {
            tasks,
            tally: Tally::none(),
        }
    }

    /// The calls of each task in a round: fewer where tasks are many or records long.
    fn calls(&self, bytes: u64) -> u64 {
        let of_all = 16_000_000u64.checked_div(bytes).unwrap_or(0);
        of_all
            .checked_div(self.tasks as u64)
            .unwrap_or(0)
            .min(1_000)
    }
}

/// What the next board opens with, and the number above which its records are.
#[derive(Clone, Copy)]
struct Next<W> {
    opening: Record<W>,
    from: u64,
}

/// A round on a board of each number of tasks. Gives what was found first.
fn rounds<R: Threads + Sync, W: Shared + Drop, F: SharedFamily<Posted<Record<W>>>>(
    rt: &R,
    alloc: Global,
    bytes: u64,
    boards: &mut [Boards],
    next: &mut Next<W>,
) -> Result<Option<Finding>, AllocError>
where
    F::Seat: Send,
    F::Receipt: Send,
{
    let mut found = None;
    for board in boards {
        let tasks = board.tasks;
        let calls = board.calls(bytes);
        let (tally, last) = soak_rounds::round::<R, W, F>(
            rt,
            alloc,
            tasks,
            next.opening,
            next.from,
            calls,
        )?;
        board.tally.add(tally);
        found = found.or(tally.found);
        next.opening = last;
        next.from = next.from.saturating_add(calls.saturating_mul(tasks as u64));
    }
    Ok(found)
}

/// Runs one cell at one size until the time is over or something is found: pairs of a writer and a reader, and boards.
fn soak<
    R: Clock + Print + Threads + Sync,
    W: Shared + Drop,
    C: Cell<Record<W>>,
    F: SharedFamily<Posted<Record<W>>>,
>(rt: &R, alloc: Global, name: &str, bytes: u64, nanos: u64) -> io::Result<Option<Finding>>
where
    C::Put: Send,
    C::Get: Send,
    C::Receipt: Send,
    F::Seat: Send,
    F::Receipt: Send,
{
    let start = Instant::now(rt)?;
    let mut pairs = Tally::none();
    let mut boards = [Boards::of(2), Boards::of(4), Boards::of(16)];
    let mut next = Next {
        opening: Record::of(0),
        from: 0,
    };
    for _ in 0..u64::MAX {
        pairs.add(pair::rounds::<R, W, C>(rt, alloc, 5)?);
        let found = rounds::<R, W, F>(rt, alloc, bytes, &mut boards, &mut next)?;
        if pairs.found.is_some() || found.is_some() || since(rt, start) >= nanos {
            break;
        }
    }
    say_all(rt, name, bytes, pairs, &boards)
}

/// Prints the counts of one soak. Gives what was found first.
fn say_all(
    rt: &impl Print,
    name: &str,
    bytes: u64,
    pairs: Tally,
    boards: &[Boards],
) -> io::Result<Option<Finding>> {
    say(rt, name, bytes, 1, pairs)?;
    let mut found = pairs.found;
    for board in boards {
        say(rt, name, bytes, board.tasks, board.tally)?;
        found = found.or(board.tally.found);
    }
    Ok(found)
}

/// The nanoseconds since then; the greatest number where the clock can't be read.
fn since(rt: &impl Clock, start: Instant) -> u64 {
    match start.elapsed(rt) {
        Ok(time) => time
            .as_secs()
            .saturating_mul(1_000_000_000)
            .saturating_add(u64::from(time.subsec_nanos())),
        Err(_) => u64::MAX,
    }
}

/// Prints the count of one soak. A pair of a writer and a reader has one task that reads.
fn say(rt: &impl Print, name: &str, bytes: u64, tasks: usize, tally: Tally) -> io::Result<()> {
    let Tally {
        writes,
        reads,
        found,
    } = tally;
    match found {
        None => println!(rt;
            "{name}, {bytes} bytes, {tasks} that read: {writes} writes, {reads} reads, nothing found"
        ),
        Some(finding) => println!(rt;
            "{name}, {bytes} bytes, {tasks} that read: {writes} writes, {reads} reads, and {finding}"
        ),
    }
}
