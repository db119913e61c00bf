//! Measures the running cells and boards. `list` names them with their record sizes. `run` measures them all once and
//! prints lines `impl,record_bytes,mode,metric,value`. `count IMPL BYTES OP N` makes one cell or board and N calls,
//! for a counter of instructions.
#![tactic(auto)]

mod boards;
mod boards_at_once;
mod boards_paced;
mod duo;
mod measure;
mod paced;
mod record;
mod sides;
mod solo;

use board_live::Posted;
use boards::{Item, PROCESSES};
use cell_contract::{Cell, SharedFamily};
use cell_four_slot::FourSlotCell;
use cell_triple::TripleCell;
use family_four_slot::FourSlotFamily;
use family_triple::TripleFamily;
use measure::{Asked, Op};
use record::{Record, Shared};
use std::alloc::Global;
use std::io;
use std::rt::Clock;
use std::thread::Threads;

const FOUR_SLOT: &str = "proved_four_slot";

const TRIPLE: &str = "proved_triple";

const BOARD_FOUR_SLOT: &str = "proved_board_four_slot";

const BOARD_TRIPLE: &str = "proved_board_triple";

fn main(rt: HostRuntime) -> io::Result<()> {
    let words: Vec<String> = std::env::args(&rt)?.collect(rt.alloc())?;
    match words.as_slice() {
        [_, command] => all(&rt, rt.alloc(), command.as_str()),
        [_, command, name, bytes, op, calls] if command.as_str() == "count" => {
            let op = match op.as_str() {
                "write" => Op::Write,
                "look" => Op::Look,
                "round" => Op::Round,
                _ => Op::Read,
            };
            let calls = calls.as_str().parse::<u64>().unwrap_or(0);
            count(
                &rt,
                rt.alloc(),
                name.as_str(),
                bytes.as_str(),
                Asked::Calls(op, calls),
            )
        }
        _ => println!(rt; "# list | run | count IMPL BYTES OP N"),
    }
}

fn all<R: Clock + Print + Threads + Sync>(rt: &R, alloc: Global, command: &str) -> io::Result<()> {
    match command {
        "list" => list(rt),
        "run" => run(rt, alloc),
        _ => println!(rt; "# list | run | count IMPL BYTES OP N"),
    }
}

fn list(rt: &impl Print) -> io::Result<()> {
    for name in [FOUR_SLOT, TRIPLE] {
        for bytes in [24, 256, 4096] {
            println!(rt; "{name},{bytes}")?;
        }
    }
    for name in [BOARD_FOUR_SLOT, BOARD_TRIPLE] {
        for n in PROCESSES {
            println!(rt; "{name}:{n},24")?;
        }
    }
    Ok(())
}

fn run<R: Clock + Print + Threads + Sync>(rt: &R, alloc: Global) -> io::Result<()> {
    for name in [FOUR_SLOT, TRIPLE] {
        for bytes in [24, 256, 4096] {
            cell(rt, alloc, name, bytes, Asked::Measures)?;
        }
    }
    board(rt, alloc, BOARD_FOUR_SLOT, 0, Asked::Measures)?;
    board(rt, alloc, BOARD_TRIPLE, 0, Asked::Measures)
}

fn count<R: Clock + Print + Threads + Sync>(
    rt: &R,
    alloc: Global,
    name: &str,
    bytes: &str,
    asked: Asked,
) -> io::Result<()> {
    match bytes {
        "24" => match name.split_once(':') {
            Some((kind, n)) => {
                let n = n.parse::<usize>().unwrap_or(0);
                if !PROCESSES.contains(&n) {
                    return println!(rt; "# no such board");
                }
                board(rt, alloc, kind, n, asked)
            }
            None => cell(rt, alloc, name, 24, asked),
        },
        "256" => cell(rt, alloc, name, 256, asked),
        "4096" => cell(rt, alloc, name, 4096, asked),
        _ => println!(rt; "# no such cell"),
    }
}

/// A cell over records of so many bytes.
fn cell<R: Clock + Print + Threads + Sync>(
    rt: &R,
    alloc: Global,
    name: &str,
    bytes: u64,
    asked: Asked,
) -> io::Result<()> {
    match bytes {
        24 => of_words::<R, [u64; 3]>(rt, alloc, name, bytes, asked),
        256 => of_words::<R, [u64; 32]>(rt, alloc, name, bytes, asked),
        _ => of_words::<R, [u64; 512]>(rt, alloc, name, bytes, asked),
    }
}

/// (Each call that names a cell's type is dear to prove: so one stands here for all sizes,
/// and for measures as for calls.)
fn of_words<R: Clock + Print + Threads + Sync, W: Shared>(
    rt: &R,
    alloc: Global,
    name: &str,
    bytes: u64,
    asked: Asked,
) -> io::Result<()> {
    match name {
        "proved_four_slot" => on_cell::<R, W, FourSlotCell<Record<W>>>(
            rt, alloc, name, bytes, asked,
        ),
        "proved_triple" => on_cell::<R, W, TripleCell<Record<W>>>(rt, alloc, name, bytes, asked),
        _ => println!(rt; "# no such cell"),
    }
}

fn on_cell<R: Clock + Print + Threads + Sync, W: Shared, C: Cell<Record<W>>>(
    rt: &R,
    alloc: Global,
    name: &str,
    bytes: u64,
    asked: Asked,
) -> io::Result<()>
where
    C::Put: Send,
    C::Get: Send,
    C::Receipt: Send,
{
    match asked {
        Asked::Measures => {
            solo::run::<R, W, C>(rt, alloc, name, bytes)?;
            duo::run::<R, W, C>(rt, alloc, name, bytes)?;
            paced::run::<R, W, C>(rt, alloc, name, bytes)
        }
        Asked::Calls(op, calls) => {
            let sum = solo::calls::<W, C>(alloc, op, calls)?;
            println!(rt; "# {sum}")
        }
    }
}

/// Boards over one family, of n processes where calls are asked for.
fn board<R: Clock + Print + Threads + Sync>(
    rt: &R,
    alloc: Global,
    kind: &str,
    n: usize,
    asked: Asked,
) -> io::Result<()> {
    match kind {
        "proved_board_four_slot" => {
            on_board::<R, FourSlotFamily<Posted<Item>>>(rt, alloc, kind, n, asked)
        }
        "proved_board_triple" => {
            on_board::<R, TripleFamily<Posted<Item>>>(rt, alloc, kind, n, asked)
        }
        _ => println!(rt; "# no such board"),
    }
}

fn on_board<R: Clock + Print + Threads + Sync, F: SharedFamily<Posted<Item>>>(
    rt: &R,
    alloc: Global,
    name: &str,
    n: usize,
    asked: Asked,
) -> io::Result<()>
where
    F::Seat: Send,
    F::Receipt: Send,
{
    match asked {
        Asked::Measures => boards::run::<R, F>(rt, alloc, name),
        Asked::Calls(op, calls) => {
            let sum = boards::calls::<F>(alloc, n, op, calls)?;
            println!(rt; "# {sum}")
        }
    }
}
