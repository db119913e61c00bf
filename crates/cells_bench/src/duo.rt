//! Writer and reader at full speed, each in a thread of its own.
use crate::measure::{clock_cost, quantile, say, since};
use crate::record::{Record, Shared, Words};
use crate::sides::{Beats, Side, at_once};
use cell_contract::{Calls, Cell};
use crossbeam_utils::CachePadded;
use std::alloc::Global;
use std::io;
use std::rt::Clock;
use std::sync::atomic::{AtomicU64, Ordering};
use std::thread::Threads;
use std::time::Instant;

/// The nanoseconds of a run.
const BUDGET: u64 = 40_000_000;

/// The most reads of a run whose times are kept.
const KEPT: usize = 600_000;

/// Waits until both sides have begun.
fn meet(mine: &AtomicU64, theirs: &AtomicU64) {
    mine.store(1, Ordering::SeqCst);
    for _ in 0..u64::MAX {
        if theirs.load(Ordering::SeqCst) != 0 {
            break;
        }
    }
}

/// What the reader counted. The writer numbers its records and puts the number into the first word and the last.
#[derive(Clone, Copy)]
struct Seen {
    torn_or_older: u64,
    last: u64,
}

impl Seen {
    fn none() -> Seen {
        Seen {
            torn_or_older: 0,
            last: 0,
        }
    }

    fn add(&mut self, first: u64, last: u64) {
        let wrong = first != last || first < self.last;
        self.torn_or_older = self.torn_or_older.saturating_add(wrong as u64);
        self.last = first;
    }
}

#[derive(Drop)]
struct Writer<'a, W: Shared, C: Cell<Record<W>>> {
    cell: &'a C,
    put: C::Put,
    item: Record<W>,
}

impl<'a, W: Shared, C: Cell<Record<W>>> Side for Writer<'a, W, C> {
    ghost ready = { λ s. C.is_put s.cell.now s.put };

    fn run<R: Clock>(&mut self, _rt: &R, beats: &Beats) {
        meet(&beats.write, &beats.read);
        for number in 1..u64::MAX {
            if beats.over.load(Ordering::SeqCst) != 0 {
                break;
            }
            self.item.mark(number);
            self.cell.write_from(&mut self.put, &self.item);
        }
    }
}

#[derive(Drop)]
struct Reader<'a, W: Shared, C: Cell<Record<W>>> {
    start: Instant,
    cell: &'a C,
    get: C::Get,
    /// Where each record is copied to.
    answer: Record<W>,
    seen: Seen,
    times: Vec<u64>,
}

/// Reads until the time is over, and keeps the time of each read.
fn read_timed<R: Clock, W: Words, C: Calls<Record<W>>>(
    rt: &R,
    start: Instant,
    cell: &C,
    get: &mut C::Get,
    answer: &mut Record<W>,
    seen: &mut Seen,
    times: &mut Vec<u64>,
)
    requires { C.is_get cell.now get.old }
{
    let end = since(rt, start).saturating_add(BUDGET);
    for _ in 0..u64::MAX {
        let before = since(rt, start);
        if before >= end {
            break;
        }
        *answer = cell.read(get);
        let after = since(rt, start);
        seen.add(answer.first(), answer.last());
        if times.len() < KEPT {
            // There is room for it.
            let _ = times.push(after.saturating_sub(before));
        }
    }
}

impl<'a, W: Shared, C: Cell<Record<W>>> Side for Reader<'a, W, C> {
    ghost ready = { λ s. C.is_get s.cell.now s.get };

    fn run<R: Clock>(&mut self, rt: &R, beats: &Beats) {
        meet(&beats.read, &beats.write);
        read_timed(
            rt,
            self.start,
            self.cell,
            &mut self.get,
            &mut self.answer,
            &mut self.seen,
            &mut self.times,
        );
        beats.over.store(1, Ordering::SeqCst);
    }
}

/// What one run measured.
#[derive(Drop)]
struct Measured {
    seen: Seen,
    cost: u64,
    times: Vec<u64>,
}

fn measure<R: Clock + Threads + Sync, W: Shared, C: Cell<Record<W>>>(
    rt: &R,
    alloc: Global,
) -> io::Result<Measured>
where
    C::Put: Send,
    C::Get: Send,
    C::Receipt: Send,
{
    let start = Instant::now(rt)?;
    let times = Vec::with_capacity(alloc, KEPT)?;
    let (cell, put, get) = C::make(alloc, Record::zero())?;
    let cell = CachePadded::new(cell);
    let mut writer: CachePadded<Writer<W, C>> = CachePadded::new(Writer {
        cell: &cell,
        put,
        item: Record::zero(),
    });
    let mut reader: CachePadded<Reader<W, C>> = CachePadded::new(Reader {
        start,
        cell: &cell,
        get,
        answer: Record::zero(),
        seen: Seen::none(),
        times,
    });
    let cost = clock_cost(rt, start);
    at_once(rt, &Beats::new(), &mut *writer, &mut *reader);
    let reader = reader.into_inner();
    Ok(Measured {
        seen: reader.seen,
        cost,
        times: reader.times,
    })
}

fn say_wrong(rt: &impl Print, name: &str, bytes: u64, seen: Seen) -> io::Result<()> {
    if seen.torn_or_older == 0 {
        return Ok(());
    }
    let wrong = seen.torn_or_older.saturating_mul(1_000);
    say(rt, name, bytes, "duo", "torn_or_backward", wrong)
}

fn say_times(rt: &impl Print, name: &str, bytes: u64, measured: &mut Measured) -> io::Result<()> {
    measured.times.sort()?;
    let times = measured.times.as_slice();
    for (metric, part) in [
        ("read_p50_ns", 5_000),
        ("read_p99_ns", 9_900),
        ("read_p99.9_ns", 9_990),
        ("read_p99.99_ns", 9_999),
    ] {
        let time = quantile(times, part).saturating_sub(measured.cost);
        say(rt, name, bytes, "duo", metric, time.saturating_mul(1_000))?;
    }
    say_wrong(rt, name, bytes, measured.seen)
}

pub fn run<R: Clock + Print + Threads + Sync, W: Shared, C: Cell<Record<W>>>(
    rt: &R,
    alloc: Global,
    name: &str,
    bytes: u64,
) -> io::Result<()>
where
    C::Put: Send,
    C::Get: Send,
    C::Receipt: Send,
{
    let mut measured = measure::<R, W, C>(rt, alloc)?;
    say_times(rt, name, bytes, &mut measured)
}
