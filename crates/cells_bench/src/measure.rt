//! Times, and the lines that are printed.
use std::alloc::Global;
use std::io;
use std::rt::Clock;
use std::time::Instant;

#[derive(Clone, Copy)]
pub enum Op {
    Write,
    Read,
    Look,
    /// A write, and a read of each other process.
    Round,
}

/// What is asked of a cell or a board: all its measures, or so many calls.
#[derive(Clone, Copy)]
pub enum Asked {
    Measures,
    Calls(Op, u64),
}

/// What is called again and again in one thread.
pub trait Batch {
    ghost ready: { Self → Type 0 };

    /// Makes so many calls, and gives a sum of what was read.
    fn batch(&mut self, op: Op, calls: u64) -> u64
        requires { ready self.old }
        ensures { ready self.new };
}

/// The nanoseconds since then, 0 where the clock can't be read.
pub fn since(rt: &impl Clock, start: Instant) -> u64 {
    match start.elapsed(rt) {
        Ok(time) => time
            .as_secs()
            .saturating_mul(1_000_000_000)
            .saturating_add(u64::from(time.subsec_nanos())),
        Err(_) => 0,
    }
}

/// What one reading of the clock costs, in nanoseconds.
pub fn clock_cost(rt: &impl Clock, start: Instant) -> u64 {
    let mut least = u64::MAX;
    for _ in 0..20_000 {
        let before = since(rt, start);
        let after = since(rt, start);
        least = least.min(after.saturating_sub(before));
    }
    least
}

/// The element of the sorted times at so many ten-thousandths.
pub fn quantile(sorted: &[u64], part: usize) -> u64 {
    let at = sorted.len().saturating_mul(part) / 10_000;
    match sorted.get(at) {
        Some(time) => *time,
        None => 0,
    }
}

/// A number of calls that take at least 100 microseconds.
fn batch_size<B: Batch>(rt: &impl Clock, called: &mut B, op: Op) -> io::Result<u64>
    requires { B.ready called.old }
    ensures { B.ready called.new }
{
    let mut size = 16u64;
    for _ in 0..16 {
        let start = Instant::now(rt)?;
        called.batch(op, size);
        if since(rt, start) > 100_000 {
            break;
        }
        size = size.saturating_mul(2);
    }
    Ok(size)
}

/// The picoseconds of one call, where so many are made at once.
fn time_batch<B: Batch>(rt: &impl Clock, called: &mut B, op: Op, size: u64) -> io::Result<u64>
    requires { B.ready called.old }
    ensures { B.ready called.new }
{
    let start = Instant::now(rt)?;
    called.batch(op, size);
    let time = since(rt, start).saturating_mul(1_000);
    Ok(time.checked_div(size).unwrap_or(0))
}

/// The picoseconds of one call, as the median of batches of at least 100 microseconds.
pub fn per_call<B: Batch>(rt: &impl Clock, alloc: Global, called: &mut B, op: Op) -> io::Result<u64>
    requires { B.ready called.old }
    ensures { B.ready called.new }
{
    let size = batch_size(rt, called, op)?;
    let mut times = Vec::new(alloc);
    for _ in 0..61 {
        times.push(time_batch(rt, called, op, size)?)?;
    }
    times.sort()?;
    Ok(quantile(times.as_slice(), 5_000))
}

/// Prints a value that is given in thousandths.
pub fn say(
    rt: &impl Print,
    name: &str,
    bytes: u64,
    mode: &str,
    metric: &str,
    thousandths: u64,
) -> io::Result<()> {
    let whole = thousandths / 1_000;
    let rest = thousandths % 1_000;
    println!(rt; "{name},{bytes},{mode},{metric},{whole}.{rest:03}")
}
