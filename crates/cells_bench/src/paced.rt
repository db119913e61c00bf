//! Control tasks: a write every microsecond in one thread, a read every 1.037 in another, each call timed.
use crate::measure::{clock_cost, quantile, say, since};
use crate::record::{Record, Shared};
use crate::sides::{Beats, Side, at_once};
use cell_contract::{Calls, Cell};
use crossbeam_utils::CachePadded;
use std::alloc::{AllocError, Global};
use std::io;
use std::rt::Clock;
use std::sync::atomic::{AtomicU64, Ordering};
use std::thread::Threads;
use std::time::Instant;

/// The calls of one side.
const CALLS: u64 = 40_000;

/// Waits for the next beat. One that was missed isn't made up for.
pub fn next_beat(rt: &impl Clock, start: Instant, next: u64, step: u64) -> u64 {
    let mut now = since(rt, start);
    let next = now.max(next.saturating_add(step));
    for _ in 0..u64::MAX {
        if now >= next {
            break;
        }
        now = since(rt, start);
    }
    next
}

/// The times of one side's calls.
#[derive(Drop)]
struct Times {
    nanos: Vec<u64>,
    other: u64,
}

impl Times {
    fn new(alloc: Global) -> Result<Times, AllocError> {
        Ok(Times {
            nanos: Vec::with_capacity(alloc, 40_000)?,
            other: 0,
        })
    }

    /// Keeps a time, where the other side made a call since the last one.
    fn keep(&mut self, mine: &AtomicU64, theirs: &AtomicU64, nanos: u64) {
        mine.fetch_add(1, Ordering::SeqCst);
        let other = theirs.load(Ordering::SeqCst);
        if other != self.other {
            // There is room for each call's time.
            let _ = self.nanos.push(nanos);
        }
        self.other = other;
    }
}

#[derive(Drop)]
struct Writer<'a, W: Shared, C: Cell<Record<W>>> {
    start: Instant,
    cell: &'a C,
    put: C::Put,
    item: Record<W>,
    times: Times,
}

impl<'a, W: Shared, C: Cell<Record<W>>> Side for Writer<'a, W, C> {
    ghost ready = { λ s. C.is_put s.cell.now s.put };

    fn run<R: Clock>(&mut self, rt: &R, beats: &Beats) {
        let mut next = 0;
        for number in 0..CALLS {
            next = next_beat(rt, self.start, next, 1_000);
            self.item.mark(number);
            let before = since(rt, self.start);
            self.cell.write_from(&mut self.put, &self.item);
            let after = since(rt, self.start);
            self.times
                .keep(&beats.write, &beats.read, after.saturating_sub(before));
        }
    }
}

#[derive(Drop)]
struct Reader<'a, W: Shared, C: Cell<Record<W>>> {
    start: Instant,
    cell: &'a C,
    get: C::Get,
    answer: Record<W>,
    times: Times,
}

impl<'a, W: Shared, C: Cell<Record<W>>> Side for Reader<'a, W, C> {
    ghost ready = { λ s. C.is_get s.cell.now s.get };

    fn run<R: Clock>(&mut self, rt: &R, beats: &Beats) {
        let mut next = 0;
        for _ in 0..CALLS {
            next = next_beat(rt, self.start, next, 1_037);
            let before = since(rt, self.start);
            self.answer = self.cell.read(&mut self.get);
            let after = since(rt, self.start);
            self.times
                .keep(&beats.read, &beats.write, after.saturating_sub(before));
        }
    }
}

/// Prints the percentiles of the times, without the clock's own cost.
fn say_times(
    rt: &impl Print,
    name: &str,
    bytes: u64,
    op: [&str; 2],
    cost: u64,
    times: &mut Times,
) -> io::Result<()> {
    times.nanos.sort()?;
    for (metric, part) in [(op[0], 5_000), (op[1], 9_900)] {
        let time = quantile(times.nanos.as_slice(), part).saturating_sub(cost);
        say(rt, name, bytes, "paced", metric, time.saturating_mul(1_000))?;
    }
    Ok(())
}

/// What one run measured.
#[derive(Drop)]
struct Measured {
    cost: u64,
    writes: Times,
    reads: Times,
}

fn measure<R: Clock + Threads + Sync, W: Shared, C: Cell<Record<W>>>(
    rt: &R,
    alloc: Global,
) -> io::Result<Measured>
where
    C::Put: Send,
    C::Get: Send,
    C::Receipt: Send,
{
    let start = Instant::now(rt)?;
    let writes = Times::new(alloc)?;
    let reads = Times::new(alloc)?;
    let (cell, put, get) = C::make(alloc, Record::zero())?;
    let cell = CachePadded::new(cell);
    let mut writer: CachePadded<Writer<W, C>> = CachePadded::new(Writer {
        start,
        cell: &cell,
        put,
        item: Record::zero(),
        times: writes,
    });
    let mut reader: CachePadded<Reader<W, C>> = CachePadded::new(Reader {
        start,
        cell: &cell,
        get,
        answer: Record::zero(),
        times: reads,
    });
    let cost = clock_cost(rt, start);
    at_once(rt, &Beats::new(), &mut *writer, &mut *reader);
    Ok(Measured {
        cost,
        writes: writer.into_inner().times,
        reads: reader.into_inner().times,
    })
}

fn say_measured(
    rt: &impl Print,
    name: &str,
    bytes: u64,
    measured: &mut Measured,
) -> io::Result<()> {
    let cost = measured.cost;
    let of_writes = ["write_p50_ns", "write_p99_ns"];
    say_times(rt, name, bytes, of_writes, cost, &mut measured.writes)?;
    let of_reads = ["read_p50_ns", "read_p99_ns"];
    say_times(rt, name, bytes, of_reads, cost, &mut measured.reads)
}

pub fn run<R: Clock + Print + Threads + Sync, W: Shared, C: Cell<Record<W>>>(
    rt: &R,
    alloc: Global,
    name: &str,
    bytes: u64,
) -> io::Result<()>
where
    C::Put: Send,
    C::Get: Send,
    C::Receipt: Send,
{
    let mut measured = measure::<R, W, C>(rt, alloc)?;
    say_measured(rt, name, bytes, &mut measured)
}
