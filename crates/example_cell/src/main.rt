//! A sensor task publishes limits and a reading, and a control loop reads them. Each runs in a thread of its
//! own until it is told to stop.
#![tactic(auto)]

ghost use Rattle.std.specs.Prelude.{◌≡◌, ◌≤◌, IfOk};
ghost use Rattle.std.proofs.Common.{le_refl, le_trans};
ghost use Rattle.cell_contract.specs.Running.{last_or};

use cell_contract::{Calls, Cell, Kept, Lawful};
use cell_four_slot::FourSlotCell;
use cell_triple::TripleCell;
use std::alloc::{AllocError, Global};
use std::sync::atomic::{AtomicBool, AtomicU64, Ordering};
use std::sync::{Arc, Wait};
use std::thread::{Threads, join_mut};
use std::{io, thread};

mod receipts;

use receipts::{followed, heard};

/// A reading with its limits.
#[derive(Clone, Copy)]
struct Sample {
    number: u64,
    low: u64,
    reading: u64,
    high: u64,
}

impl Lawful for Sample {
    ghost fits = { λ s. (s.low ≤ s.reading) × (s.reading ≤ s.high) };

    ghost rises = { λ a b. a.number ≤ b.number };

    ghost reflexive = { λ a. le_refl a.number };

    ghost transitive = { λ a b c. le_trans };
}

impl Kept for Sample {}

/// What the sensor measures at a turn.
fn measured(number: u64) -> Sample
    ensures { (result.number ≡ number) × (result.low ≤ result.reading) × (result.reading ≤ result.high) }
{
    let low = number / 2;
    Sample {
        number,
        low,
        reading: low + number % 2,
        high: low + 1,
    }
}

/// What tells the tasks to stop, and how many turns each has taken.
#[derive(Drop)]
struct Orders {
    stop: AtomicBool,
    samples: AtomicU64,
    turns: AtomicU64,
}

impl Orders {
    fn new() -> Orders {
        Orders {
            stop: AtomicBool::new(false),
            samples: AtomicU64::new(0),
            turns: AtomicU64::new(0),
        }
    }

    fn is_told(&self) -> bool {
        self.stop.load(Ordering::SeqCst)
    }

    /// Tells both tasks to stop, once each has taken so many turns.
    fn stop_after<R: Wait>(&self, rt: &R, turns: u64) {
        for _ in rt.forever() {
            if turns <= self.samples.load(Ordering::SeqCst)
                && turns <= self.turns.load(Ordering::SeqCst)
            {
                break;
            }
            thread::yield_now();
        }
        self.stop.store(true, Ordering::SeqCst);
    }
}

/// The sensor's task owns the right to write, and knows the number of its last sample.
#[derive(Drop)]
struct Sensor<C: Cell<Sample>> {
    put: C::Put,
    number: u64,
}

/// The control loop owns the right to read, and has the sample that it steers by.
#[derive(Drop)]
struct Control<C: Cell<Sample>> {
    get: C::Get,
    sample: Sample,
}

/// Publishes the samples 1, 2, 3 and so on until it is told to stop.
fn publish<C: Cell<Sample>>(cell: &C, task: &mut Sensor<C>, orders: &Orders)
    requires own { C.is_put cell.now task.old.put }
    requires last { (last_or (C.opening cell.now) (C.written task.old.put)).number ≡ task.old.number }
    requires first { task.old.number ≡ 0 }
    ensures own { C.is_put cell.now task.new.put }
    ensures last { (last_or (C.opening cell.now) (C.written task.new.put)).number ≡ task.new.number }
{
    for turn in 0..u64::MAX {
        if orders.is_told() {
            break;
        }
        cell.write(&mut task.put, measured(turn + 1));
        task.number = turn + 1;
        orders.samples.fetch_add(1, Ordering::SeqCst);
    }
}

/// The control loop takes the cell's sample at each turn, until it is told to stop. It steers by the cell's last
/// answer, which is whole and no older than the one before.
fn steer<R: Wait, C: Cell<Sample>>(rt: &R, cell: &C, task: &mut Control<C>, orders: &Orders)
    requires own { C.is_get cell.now task.old.get }
    requires last { task.old.sample ≡ last_or (C.opening cell.now) (C.answers task.old.get) }
    requires whole { (task.old.sample.low ≤ task.old.sample.reading)
        × (task.old.sample.reading ≤ task.old.sample.high) }
    ensures own { C.is_get cell.now task.new.get }
    ensures last { task.new.sample ≡ last_or (C.opening cell.now) (C.answers task.new.get) }
    ensures whole { (task.new.sample.low ≤ task.new.sample.reading) × (task.new.sample.reading ≤ task.new.sample.high) }
    ensures no_older { task.old.sample.number ≤ task.new.sample.number }
{
    for _ in rt.forever() {
        if orders.is_told() {
            break;
        }
        let sample = cell.read(&mut task.get);
        task.sample = sample;
        orders.turns.fetch_add(1, Ordering::SeqCst);
    }
}

/// Both tasks, each in a thread of its own, until they are told to stop.
fn at_once<R: Threads + Wait + Sync, C: Cell<Sample>>(
    rt: &R,
    cell: &C,
    sensor: &mut Sensor<C>,
    loops: &mut Control<C>,
    orders: &Orders,
)
where
    C::Put: Send,
    C::Get: Send,
    C::Receipt: Send,
    requires own { C.is_put cell.now sensor.old.put × C.is_get cell.now loops.old.get }
    requires written { (last_or (C.opening cell.now) (C.written sensor.old.put)).number ≡ sensor.old.number }
    requires first { sensor.old.number ≡ 0 }
    requires read { loops.old.sample ≡ last_or (C.opening cell.now) (C.answers loops.old.get) }
    requires whole { (loops.old.sample.low ≤ loops.old.sample.reading)
        × (loops.old.sample.reading ≤ loops.old.sample.high) }
    ensures own { C.is_put cell.now sensor.new.put × C.is_get cell.now loops.new.get }
    ensures written { (last_or (C.opening cell.now) (C.written sensor.new.put)).number ≡ sensor.new.number }
    ensures read { loops.new.sample ≡ last_or (C.opening cell.now) (C.answers loops.new.get) }
{
    join_mut(
        rt,
        &mut ||
            requires { C.is_put cell.now sensor.now.put
                × ((last_or (C.opening cell.now) (C.written sensor.now.put)).number ≡ sensor.now.number)
                × (sensor.now.number ≡ 0) }
            ensures { C.is_put cell.entry.now sensor.exit.now.put
                × ((last_or (C.opening cell.entry.now) (C.written sensor.exit.now.put)).number
                ≡ sensor.exit.now.number) }
        { publish(cell, sensor, orders) },
        &mut ||
            requires { C.is_get cell.now loops.now.get
                × (loops.now.sample ≡ last_or (C.opening cell.now) (C.answers loops.now.get))
                × (loops.now.sample.low ≤ loops.now.sample.reading)
                × (loops.now.sample.reading ≤ loops.now.sample.high) }
            ensures { C.is_get cell.entry.now loops.exit.now.get
                × (loops.exit.now.sample ≡ last_or (C.opening cell.entry.now) (C.answers loops.exit.now.get)) }
        { steer(rt, cell, loops, orders) },
    );
}

/// Runs both tasks until each has taken 1,000 turns or more. Then the sensor's receipt says "no older than this", and
/// the control loop's next answer isn't. Gives the number of the last sample that was written, and this answer.
fn told<R: Threads + Wait + Sync + Copy + Send + 'static, C: Cell<Sample>>(
    rt: R,
    alloc: Global,
) -> Result<(u64, Sample), AllocError>
where
    C::Put: Send,
    C::Get: Send,
    C::Receipt: Send,
    ensures whole { IfOk result (λ r. (r.1.low ≤ r.1.reading) × (r.1.reading ≤ r.1.high)) }
    ensures no_older { IfOk result (λ r. r.0 ≤ r.1.number) }
{
    let first = measured(0);
    let (cell, put, get) = C::make(alloc, first)?;
    let mut sensor: Sensor<C> = Sensor { put, number: 0 };
    let mut loops: Control<C> = Control { get, sample: first };
    let orders = Arc::new(alloc, Orders::new())?;
    let watched = Arc::try_clone(&orders)?;
    let watch = thread::spawn(&rt, move || watched.stop_after(&rt, 1_000))?;
    at_once(&rt, &cell, &mut sensor, &mut loops, &orders);
    watch.join(&rt);
    let receipt = cell.tell(&mut sensor.put);
    cell.learn(&mut loops.get, receipt);
    let sample = cell.read(&mut loops.get);
    let Sensor { put, number } = sensor;
    let Control { get, sample: _ } = loops;
    cell.finish(put, get);
    Ok((number, sample))
}

/// Where a door stands. Any angle may follow any other.
#[derive(Clone, Copy)]
struct Door {
    angle: u64,
}

impl Lawful for Door {
    ghost fits = { λ _. Unit {0} };

    ghost rises = { λ _ _. Unit {0} };

    ghost reflexive = { λ _. tt };

    ghost transitive = { λ _ _ _ _ _. tt };
}

/// A door stands at 90 and is moved to 40. Gives what its reader follows before, and the angle that it hears of.
fn moved<C: Calls<Door>>(alloc: Global) -> Result<(u64, u64, u64), AllocError>
    ensures { IfOk result (λ angles. angles.2 ≡ 40) }
{
    let (cell, mut put, mut get) = C::make(alloc, Door { angle: 90 })?;
    let (first, second) = followed::<Door, C>(&cell, &mut put, &mut get);
    let last = heard::<Door, C>(cell, put, get, Door { angle: 40 });
    Ok((first.angle, second.angle, last.angle))
}

fn main(rt: HostRuntime) -> io::Result<()> {
    let (number, sample) = told::<_, FourSlotCell<Sample>>(rt, rt.alloc())?;
    println!(rt;
        "four slots: 1,000 samples or more: {}, and the last one was read: {}",
        1_000 <= number,
        sample.number == number
    )?;
    let (number, sample) = told::<_, TripleCell<Sample>>(rt, rt.alloc())?;
    println!(rt;
        "triple buffer: 1,000 samples or more: {}, and the last one was read: {}",
        1_000 <= number,
        sample.number == number
    )?;
    let (first, second, last) = moved::<TripleCell<Door>>(rt.alloc())?;
    println!(rt; "a door stands at {first}, {second} and {last}")
}
