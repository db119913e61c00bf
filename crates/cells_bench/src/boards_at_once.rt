//! Tasks over a board at full speed, each in a thread of its own: a write and a read in turn.
ghost use Rattle.std.specs.Prelude.{All, IfOk};
ghost use Rattle.board_live.specs.Passes.{IsPass};
ghost use Rattle.cells_bench.specs.Items.{no_law};

use crate::boards::{Item, Team};
use crate::measure::{clock_cost, quantile, say, since};
use board_live::{Board, Pass, Posted};
use cell_contract::{Family, SharedFamily};
use crossbeam_utils::CachePadded;
use std::alloc::{AllocError, Global};
use std::rt::Clock;
use std::sync::atomic::{AtomicU64, Ordering};
use std::thread::Threads;
use std::time::Instant;
use std::{io, thread};

/// The nanoseconds of a run.
const BUDGET: u64 = 40_000_000;

/// The most reads of a task whose times are kept.
const KEPT: usize = 200_000;

/// What the tasks tell each other: how many have begun, and that the run is over.
#[derive(Drop)]
pub struct Signals {
    tasks: u64,
    begun: CachePadded<AtomicU64>,
    over: CachePadded<AtomicU64>,
}

impl Signals {
    fn new(tasks: u64) -> Signals {
        Signals {
            tasks,
            begun: CachePadded::new(AtomicU64::new(0)),
            over: CachePadded::new(AtomicU64::new(0)),
        }
    }

    /// Waits until all tasks have begun.
    pub fn meet(&self) {
        self.begun.fetch_add(1, Ordering::SeqCst);
        for _ in 0..u64::MAX {
            if self.begun.load(Ordering::SeqCst) >= self.tasks {
                break;
            }
        }
    }
}

/// What a task counted, and the times of each fourth read.
#[derive(Drop)]
struct Counted {
    calls: u64,
    torn: u64,
    nanos: u64,
    times: Vec<u64>,
}

/// One task with its pass.
#[derive(Drop)]
struct Task<'a, F: Family<Posted<Item>>> {
    start: Instant,
    board: &'a Board<Item, F>,
    pass: Pass<Item, F>,
    counted: Counted,
}

/// What runs until the time is over.
pub trait Runs {
    ghost ready: { Self → Type 0 };

    fn run<R: Clock>(&mut self, rt: &R, signals: &Signals)
        requires { ready self.old };
}

impl<'a, F: Family<Posted<Item>>> Runs for Task<'a, F> {
    ghost ready = { λ t. IsPass ⟦<F as Family<Posted<Item>>>⟧ no_law t.board.now t.pass };

    /// Writes and reads by turns until the time is over.
    fn run<R: Clock>(&mut self, rt: &R, signals: &Signals) {
        signals.meet();
        let begun = since(rt, self.start);
        let end = begun.saturating_add(BUDGET);
        for number in 1..u64::MAX {
            if signals.over.load(Ordering::SeqCst) != 0 {
                break;
            }
            let _ = self.board.write(&mut self.pass, Item::of(number));
            let timed = number % 4 == 0;
            let before = if timed { since(rt, self.start) } else { 0 };
            let item = self.board.read(&mut self.pass).item;
            if timed {
                let after = since(rt, self.start);
                self.counted.keep(after.saturating_sub(before));
                if after >= end {
                    signals.over.store(1, Ordering::SeqCst);
                }
            }
            self.counted.add(item);
        }
        self.counted.nanos = since(rt, self.start).saturating_sub(begun);
    }
}

impl Counted {
    /// Counts a write and the read after it.
    fn add(&mut self, item: Item) {
        self.calls = self.calls.saturating_add(2);
        self.torn = self.torn.saturating_add(item.is_torn() as u64);
    }

    fn keep(&mut self, nanos: u64) {
        if self.times.len() < KEPT {
            // There is room for it.
            let _ = self.times.push(nanos);
        }
    }

    /// The calls as thousandths of millions in a second.
    fn speed(&self) -> u64 {
        self.calls
            .saturating_mul(1_000_000)
            .checked_div(self.nanos)
            .unwrap_or(0)
    }
}

/// What all tasks counted, and what one reading of the clock costs.
#[derive(Drop)]
struct Total {
    cost: u64,
    speed: u64,
    torn: u64,
    times: Vec<u64>,
}

/// A task for each of the last so many passes.
fn make_tasks<'a, F: Family<Posted<Item>>>(
    alloc: Global,
    start: Instant,
    board: &'a Board<Item, F>,
    mut passes: Vec<Pass<Item, F>>,
    count: usize,
) -> Result<Vec<CachePadded<Task<'a, F>>>, AllocError>
    requires { All (IsPass ⟦<F as Family<Posted<Item>>>⟧ no_law board.now) passes.items }
    ensures { IfOk result
        (λ tasks. All (λ t. IsPass ⟦<F as Family<Posted<Item>>>⟧ no_law t.value.board.now t.value.pass) tasks.items) }
{
    let mut tasks = Vec::with_capacity(alloc, count)?;
    for _ in 0..count {
        let Some(pass) = passes.pop() else {
            break;
        };
        let counted = Counted {
            calls: 0,
            torn: 0,
            nanos: 0,
            times: Vec::with_capacity(alloc, KEPT)?,
        };
        tasks.push(CachePadded::new(Task {
            start,
            board,
            pass,
            counted,
        }))?;
    }
    Ok(tasks)
}

/// Runs each task in a thread of its own.
pub fn run_each<R: Clock + Threads + Sync, X: Runs + Send>(rt: &R, tasks: &mut [CachePadded<X>])
    requires { All (λ t. X.ready t.value) tasks.old }
{
    let count = tasks.len();
    if count == 0 {
        return;
    }
    let signals = Signals::new(count as u64);
    thread::for_each_mut(
        rt,
        tasks,
        count,
        &|_, task: &mut CachePadded<X>|
            requires { X.ready task.now.value }
        { task.run(rt, &signals) },
    );
}

/// Adds up what the tasks counted.
fn add_up<F: Family<Posted<Item>>>(
    alloc: Global,
    tasks: Vec<CachePadded<Task<F>>>,
    cost: u64,
) -> Result<Total, AllocError> {
    let mut total = Total {
        cost,
        speed: 0,
        torn: 0,
        times: Vec::new(alloc),
    };
    for task in tasks {
        let mut counted = task.into_inner().counted;
        total.speed = total.speed.saturating_add(counted.speed());
        total.torn = total.torn.saturating_add(counted.torn);
        total.times.append(&mut counted.times)?;
    }
    total.times.sort()?;
    Ok(total)
}

/// Prints the percentiles of the times of reads, without the clock's own cost.
fn say_times(rt: &impl Print, name: &str, mode: &str, total: &Total) -> io::Result<()> {
    let times = total.times.as_slice();
    for (metric, part) in [
        ("read_p50_ns", 5_000),
        ("read_p99_ns", 9_900),
        ("read_p99.9_ns", 9_990),
        ("read_p99.99_ns", 9_999),
    ] {
        let time = quantile(times, part).saturating_sub(total.cost);
        say(rt, name, 24, mode, metric, time.saturating_mul(1_000))?;
    }
    Ok(())
}

fn say_total(rt: &impl Print, name: &str, mode: &str, total: &Total) -> io::Result<()> {
    say(rt, name, 24, mode, "total_mops", total.speed)?;
    say_times(rt, name, mode, total)?;
    if total.torn == 0 {
        return Ok(());
    }
    let torn = total.torn.saturating_mul(1_000);
    say(rt, name, 24, mode, "torn_or_backward", torn)
}

fn measure<R: Clock + Threads + Sync, F: SharedFamily<Posted<Item>>>(
    rt: &R,
    alloc: Global,
    n: usize,
    count: usize,
) -> io::Result<Total>
where
    F::Seat: Send,
    F::Receipt: Send,
{
    let start = Instant::now(rt)?;
    let cost = clock_cost(rt, start);
    let Team { board, passes } = Team::<F>::new(alloc, n)?;
    let board = CachePadded::new(board);
    let mut tasks = make_tasks(alloc, start, &board, passes, count)?;
    run_each::<R, Task<F>>(rt, tasks.as_mut_slice());
    let total = add_up(alloc, tasks, cost)?;
    Ok(total)
}

/// Measures so many tasks on a board of n processes.
pub fn run<R: Clock + Print + Threads + Sync, F: SharedFamily<Posted<Item>>>(
    rt: &R,
    alloc: Global,
    name: &str,
    n: usize,
    count: usize,
) -> io::Result<()>
where
    F::Seat: Send,
    F::Receipt: Send,
{
    let total = measure::<R, F>(rt, alloc, n, count)?;
    let mode = format!(in alloc; "n{n}_t{count}")?;
    say_total(rt, name, mode.as_str(), &total)
}
