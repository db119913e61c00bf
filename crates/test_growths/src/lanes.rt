//! Lanes of a running board. A lane that is refused gives its pass back, and where no thread can be had the tasks run
//! one after the other: every log is whole, and every pass may be used on.
ghost use Rattle.std.specs.Prelude.{◌≡◌, All, IfOk, length};
ghost use Rattle.history_core.specs.Band.{fits};
ghost use Rattle.board_live.specs.Passes.{IsPass};
ghost use Rattle.board_tasks.specs.Lanes.{IsLane};
ghost use Rattle.board_tasks.specs.Logs.{Obeys};

use crate::documents::Stopped;
use crate::print;
use crate::team::{A, OPENING};
use board_live::{Board, Pass, Posted};
use board_tasks::{
    Entry, Lane, OpenGate, Origin, check_origin, finish_lanes, make_lanes, run_tasks,
};
use cell_contract::{Family, SharedFamily};
use history_core::{Band, Items, Wish};
use matrix_core::Stamp;
use std::alloc::{AllocError, Global};
use std::io;
use std::thread::Threads;

/// The tasks of the run, and how often each writes and reads.
const TASKS: usize = 4;

const ROUNDS: usize = 20;

/// Writes and reads by turns.
fn script(alloc: Global, rounds: usize) -> Result<Vec<Wish<Band>>, AllocError>
    ensures { IfOk result (λ s. All (Obeys fits) s.items) }
{
    let mut wishes = Vec::new(alloc);
    for _ in 0..rounds {
        wishes.push(Wish::Write(A))?;
        wishes.push(Wish::Read)?;
    }
    Ok(wishes)
}

/// A lane of the pass. Where it is refused, the pass that it gave back makes another with the second script.
fn lane_of<F: Family<Posted<Band>>>(
    alloc: Global,
    pass: Pass<Band, F>,
    first: Vec<Wish<Band>>,
    second: Vec<Wish<Band>>,
) -> Result<Lane<Band, F>, AllocError>
    requires { All (Obeys fits) first.items × All (Obeys fits) second.items }
    ensures { IfOk result (λ l. (l.pass ≡ pass) × IsLane fits l) }
{
    match Lane::new(alloc, pass, first) {
        Ok(lane) => Ok(lane),
        Err((pass, _)) => match Lane::new(alloc, pass, second) {
            Ok(lane) => Ok(lane),
            Err((_, refused)) => Err(refused),
        },
    }
}

/// Runs a lane with the pass of process 1, of two.
fn one_lane<R: Threads + Sync, F: SharedFamily<Posted<Band>>>(
    rt: &R,
    alloc: Global,
) -> Result<Vec<Lane<Band, F>>, AllocError>
where
    F::Seat: Send,
    F::Receipt: Send,
{
    let Ok((board, mut passes)) = Board::<Band, F>::new(alloc, 2, 9, OPENING) else {
        return Err(AllocError);
    };
    let first = script(alloc, 1)?;
    let second = script(alloc, 1)?;
    let mut lanes = Vec::with_capacity(alloc, 1)?;
    if let Some(pass) = passes.pop() {
        lanes.push(lane_of(alloc, pass, first, second)?)?;
        run_tasks(rt, &board, lanes.as_mut_slice(), &OpenGate);
    }
    Ok(lanes)
}

fn print_log<F: Family<Posted<Band>>>(
    rt: &impl Print,
    lanes: Result<Vec<Lane<Band, F>>, AllocError>,
) -> io::Result<()> {
    match lanes {
        Ok(lanes) => {
            for lane in lanes.as_slice() {
                println!(rt; "{:?}", lane.log())?;
            }
            Ok(())
        }
        Err(_) => print::stopped(rt, Stopped::NoMemory),
    }
}

/// A script for each task.
fn scripts(alloc: Global) -> Result<Items<Items<Wish<Band>>>, AllocError>
    ensures lawful { IfOk result (λ s. All (λ t. All (Obeys fits) t) s) }
    ensures count { IfOk result (λ s. length s ≡ 4) }
{
    let mut all = Vec::new(alloc);
    for _ in 0..TASKS {
        all.push(Items::new(script(alloc, ROUNDS)?))?;
    }
    Ok(Items::new(all))
}

/// How many logs have all calls of their scripts.
fn whole_logs<F: Family<Posted<Band>>>(lanes: &[Lane<Band, F>]) -> usize {
    let mut count = 0usize;
    for lane in lanes {
        if lane.log().len() == 2 * ROUNDS {
            count = count.saturating_add(1);
        }
    }
    count
}

/// Whether the pass of a lane may be used on: its next read isn't older than the log, and its next write is above that.
fn is_usable<F: Family<Posted<Band>>>(board: &Board<Band, F>, lane: Lane<Band, F>) -> bool
    requires { IsPass ⟦<F as Family<Posted<Band>>>⟧ fits board.now lane.pass }
{
    let last = match lane.log().last() {
        Some(entry) => entry.reply.stamp(),
        None => Stamp { tag: 0, writer: 0 },
    };
    let mut pass = lane.into_pass();
    let seen = board.read(&mut pass).stamp;
    match board.write(&mut pass, A) {
        Ok(stamp) => last <= seen && seen < stamp,
        Err(_) => false,
    }
}

/// How many of the lanes' passes may be used on.
fn usable_passes<F: Family<Posted<Band>>>(
    board: &Board<Band, F>,
    lanes: Vec<Lane<Band, F>>,
) -> usize
    requires { All (λ l. IsPass ⟦<F as Family<Posted<Band>>>⟧ fits board.now l.pass) lanes.items }
{
    let mut lanes = lanes;
    let mut count = 0usize;
    for _ in 0..lanes.len() {
        let Some(lane) = lanes.pop() else {
            return count;
        };
        if is_usable(board, lane) {
            count = count.saturating_add(1);
        }
    }
    count
}

/// What the tasks left behind.
#[derive(Clone, Copy)]
struct Outcome {
    whole: usize,
    origin: Origin,
    usable: usize,
}

/// Runs the tasks on a board of their own, with a gate that never stops them.
fn all_tasks<R: Threads + Sync, F: SharedFamily<Posted<Band>>>(
    rt: &R,
    alloc: Global,
) -> Result<Outcome, AllocError>
where
    F::Seat: Send,
    F::Receipt: Send,
{
    let Ok((board, passes)) = Board::<Band, F>::new(alloc, TASKS, 9_999, OPENING) else {
        return Err(AllocError);
    };
    let mut lanes = make_lanes(alloc, passes, scripts(alloc)?)?;
    run_tasks(rt, &board, lanes.as_mut_slice(), &OpenGate);
    let whole = whole_logs(lanes.as_slice());
    let origin = check_origin(OPENING, lanes.as_slice());
    let usable = usable_passes(&board, lanes);
    Ok(Outcome {
        whole,
        origin,
        usable,
    })
}

/// Runs the tasks on a board of their own, and ends it. Gives their logs.
fn logs_of<R: Threads + Sync, F: SharedFamily<Posted<Band>>>(
    rt: &R,
    alloc: Global,
) -> Result<Vec<Vec<Entry<Band>>>, AllocError>
where
    F::Seat: Send,
    F::Receipt: Send,
{
    let Ok((board, passes)) = Board::<Band, F>::new(alloc, TASKS, 9_999, OPENING) else {
        return Err(AllocError);
    };
    let all = scripts(alloc)?;
    let mut lanes = make_lanes(alloc, passes, all)?;
    run_tasks(rt, &board, lanes.as_mut_slice(), &OpenGate);
    let (logs, _last) = finish_lanes(alloc, board, lanes)?;
    Ok(logs)
}

/// What is done with lanes.
#[derive(Clone, Copy)]
pub enum Call {
    /// One lane is made, whose log is printed.
    New,
    /// Tasks are run, and it is printed what they left behind.
    Run,
    /// Tasks are run to the end of their board, and it is printed how many logs are whole.
    Finish,
}

/// Makes the call on a board over this family, and prints its answer.
pub fn over<R: Print + Threads + Sync, F: SharedFamily<Posted<Band>>>(
    rt: &R,
    alloc: Global,
    call: Call,
) -> io::Result<()>
where
    F::Seat: Send,
    F::Receipt: Send,
{
    match call {
        Call::New => print_log(rt, one_lane::<R, F>(rt, alloc)),
        Call::Run => print_outcome(rt, all_tasks::<R, F>(rt, alloc)),
        Call::Finish => print_logs(rt, logs_of::<R, F>(rt, alloc)),
    }
}

fn print_outcome(rt: &impl Print, outcome: Result<Outcome, AllocError>) -> io::Result<()> {
    match outcome {
        Ok(
            Outcome {
                whole,
                origin,
                usable,
            },
        ) => println!(rt; "{whole} whole logs, {origin:?}, {usable} passes used on"),
        Err(_) => print::stopped(rt, Stopped::NoMemory),
    }
}

fn print_logs(rt: &impl Print, logs: Result<Vec<Vec<Entry<Band>>>, AllocError>) -> io::Result<()> {
    match logs {
        Ok(logs) => {
            let whole = logs.iter().filter(|log| log.len() == 2 * ROUNDS).count();
            println!(rt; "{whole} whole logs of {}", logs.len())
        }
        Err(_) => print::stopped(rt, Stopped::NoMemory),
    }
}
