//! Control tasks over a board of eight processes. Each of four threads makes the calls of two of them, one at a beat,
//! some microsecond apart. A process makes a hundred reads to one write, and each call is timed.
ghost use Rattle.std.specs.Prelude.{All, IfOk};
ghost use Rattle.board_live.specs.Passes.{IsPass};
ghost use Rattle.cells_bench.specs.Items.{no_law};

use crate::boards::{Item, Team};
use crate::boards_at_once::{Runs, Signals, run_each};
use crate::measure::{clock_cost, quantile, say, since};
use crate::paced::next_beat;
use board_live::{Board, Pass, Posted};
use cell_contract::{Family, SharedFamily};
use crossbeam_utils::CachePadded;
use std::alloc::{AllocError, Global};
use std::io;
use std::rt::Clock;
use std::thread::Threads;
use std::time::Instant;

/// The threads, each of which has two processes.
const THREADS: u64 = 4;

/// The calls of each of the two.
const CALLS: u64 = 20_000;

/// The calls of a process from one write to the next.
const TURN: u64 = 101;

/// The times of calls, and how many records were torn.
#[derive(Drop)]
struct Times {
    writes: Vec<u64>,
    reads: Vec<u64>,
    torn: u64,
}

impl Times {
    /// With room for the calls of one thread.
    fn new(alloc: Global) -> Result<Times, AllocError> {
        Ok(Times {
            writes: Vec::with_capacity(alloc, 1_000)?,
            reads: Vec::with_capacity(alloc, 40_000)?,
            torn: 0,
        })
    }

    fn keep_read(&mut self, nanos: u64, item: Item) {
        // There is room for it.
        let _ = self.reads.push(nanos);
        self.torn = self.torn.saturating_add(item.is_torn() as u64);
    }

    fn keep_write(&mut self, nanos: u64) {
        // There is room for it.
        let _ = self.writes.push(nanos);
    }
}

/// One thread with the passes of its two processes.
#[derive(Drop)]
struct Pair<'a, F: Family<Posted<Item>>> {
    start: Instant,
    board: &'a Board<Item, F>,
    first: Pass<Item, F>,
    second: Pass<Item, F>,
    /// The thread's number.
    number: u64,
    times: Times,
}

/// Makes a process's call of this turn and keeps its time.
fn call<R: Clock, F: Family<Posted<Item>>>(
    rt: &R,
    start: Instant,
    board: &Board<Item, F>,
    pass: &mut Pass<Item, F>,
    turn: u64,
    times: &mut Times,
)
    requires { IsPass ⟦<F as Family<Posted<Item>>>⟧ no_law board.now pass.old }
    ensures { IsPass ⟦<F as Family<Posted<Item>>>⟧ no_law board.now pass.new }
{
    let before = since(rt, start);
    if turn % TURN == 0 {
        let _ = board.write(pass, Item::of(turn));
        let after = since(rt, start);
        times.keep_write(after.saturating_sub(before));
    } else {
        let item = board.read(pass).item;
        let after = since(rt, start);
        times.keep_read(after.saturating_sub(before), item);
    }
}

impl<'a, F: Family<Posted<Item>>> Runs for Pair<'a, F> {
    ghost ready = { λ p. IsPass ⟦<F as Family<Posted<Item>>>⟧ no_law p.board.now p.first
        × IsPass ⟦<F as Family<Posted<Item>>>⟧ no_law p.board.now p.second };

    /// The threads' beats drift apart, and so do their writes.
    fn run<R: Clock>(&mut self, rt: &R, signals: &Signals) {
        let step = self.number.saturating_mul(37).saturating_add(1_000);
        let begins = self.number.saturating_mul(37);
        signals.meet();
        let mut next = since(rt, self.start);
        for number in 0..CALLS {
            let turn = begins.saturating_add(number);
            next = next_beat(rt, self.start, next, step);
            call(
                rt,
                self.start,
                self.board,
                &mut self.first,
                turn,
                &mut self.times,
            );
            next = next_beat(rt, self.start, next, step);
            call(
                rt,
                self.start,
                self.board,
                &mut self.second,
                turn,
                &mut self.times,
            );
        }
    }
}

/// A thread for each two of the passes.
fn make_pairs<'a, F: Family<Posted<Item>>>(
    alloc: Global,
    start: Instant,
    board: &'a Board<Item, F>,
    mut passes: Vec<Pass<Item, F>>,
) -> Result<Vec<CachePadded<Pair<'a, F>>>, AllocError>
    requires { All (IsPass ⟦<F as Family<Posted<Item>>>⟧ no_law board.now) passes.items }
    ensures { IfOk result
        (λ pairs. All (λ p. IsPass ⟦<F as Family<Posted<Item>>>⟧ no_law p.value.board.now p.value.first
        × IsPass ⟦<F as Family<Posted<Item>>>⟧ no_law p.value.board.now p.value.second) pairs.items) }
{
    let mut pairs = Vec::new(alloc);
    for number in 0..THREADS {
        let Some(first) = passes.pop() else {
            break;
        };
        let Some(second) = passes.pop() else {
            break;
        };
        let times = Times::new(alloc)?;
        pairs.push(CachePadded::new(Pair {
            start,
            board,
            first,
            second,
            number,
            times,
        }))?;
    }
    Ok(pairs)
}

/// All that the threads kept, each list sorted.
fn add_up<F: Family<Posted<Item>>>(
    alloc: Global,
    pairs: Vec<CachePadded<Pair<F>>>,
) -> Result<Times, AllocError> {
    let mut all = Times {
        writes: Vec::new(alloc),
        reads: Vec::new(alloc),
        torn: 0,
    };
    for pair in pairs {
        let mut times = pair.into_inner().times;
        all.writes.append(&mut times.writes)?;
        all.reads.append(&mut times.reads)?;
        all.torn = all.torn.saturating_add(times.torn);
    }
    all.writes.sort()?;
    all.reads.sort()?;
    Ok(all)
}

fn measure<R: Clock + Threads + Sync, F: SharedFamily<Posted<Item>>>(
    rt: &R,
    alloc: Global,
    start: Instant,
) -> io::Result<Times>
where
    F::Seat: Send,
    F::Receipt: Send,
{
    let Team { board, passes } = Team::<F>::new(alloc, 8)?;
    let board = CachePadded::new(board);
    let mut pairs = make_pairs(alloc, start, &board, passes)?;
    run_each::<R, Pair<F>>(rt, pairs.as_mut_slice());
    let times = add_up(alloc, pairs)?;
    Ok(times)
}

/// The mean of times in picoseconds, without the clock's own cost.
fn mean(times: &[u64], cost: u64) -> u64 {
    let mut sum = 0u64;
    for time in times {
        sum = sum.saturating_add(time.saturating_sub(cost));
    }
    let count = times.len() as u64;
    sum.saturating_mul(1_000).checked_div(count).unwrap_or(0)
}

/// Prints the mean and the percentiles of the times, without the clock's own cost.
fn say_times(
    rt: &impl Print,
    name: &str,
    metrics: [&str; 4],
    times: &[u64],
    cost: u64,
) -> io::Result<()> {
    say(rt, name, 24, "n8_paced", metrics[0], mean(times, cost))?;
    for (metric, part) in [
        (metrics[1], 5_000),
        (metrics[2], 9_900),
        (metrics[3], 9_990),
    ] {
        let time = quantile(times, part).saturating_sub(cost);
        say(rt, name, 24, "n8_paced", metric, time.saturating_mul(1_000))?;
    }
    Ok(())
}

/// Measures a board of eight processes in four threads.
pub fn run<R: Clock + Print + Threads + Sync, F: SharedFamily<Posted<Item>>>(
    rt: &R,
    alloc: Global,
    name: &str,
) -> io::Result<()>
where
    F::Seat: Send,
    F::Receipt: Send,
{
    let start = Instant::now(rt)?;
    let cost = clock_cost(rt, start);
    let times = measure::<R, F>(rt, alloc, start)?;
    let reads = [
        "read_mean_ns",
        "read_p50_ns",
        "read_p99_ns",
        "read_p99.9_ns",
    ];
    say_times(rt, name, reads, times.reads.as_slice(), cost)?;
    let writes = [
        "write_mean_ns",
        "write_p50_ns",
        "write_p99_ns",
        "write_p99.9_ns",
    ];
    say_times(rt, name, writes, times.writes.as_slice(), cost)?;
    if times.torn == 0 {
        return Ok(());
    }
    let torn = times.torn.saturating_mul(1_000);
    say(rt, name, 24, "n8_paced", "torn_or_backward", torn)
}
