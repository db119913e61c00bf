//! Records of several words, read while they are written.
ghost use Rattle.std.specs.Prelude.{◌≡◌, ◌≤◌, ◌<◌, ◌+◌, ◌^◌, []};
ghost use Rattle.std.proofs.Common.{le_refl, le_trans};
ghost use Rattle.cell_contract.specs.Running.{last_or};

use cell_contract::{Calls, Cell, Kept, Lawful};
use cell_four_slot::FourSlotCell;
use cell_triple::TripleCell;
use std::alloc::{AllocError, Global};
use std::sync::Wait;
use std::sync::atomic::{AtomicU64, Ordering};
use std::test::Fail;
use std::thread::{Threads, join_mut};

/// Three equal numbers.
#[derive(Clone, Copy)]
struct Three {
    first: u64,
    second: u64,
    third: u64,
}

impl Lawful for Three {
    ghost fits = { λ a. (a.first ≡ a.second) × (a.second ≡ a.third) };

    ghost rises = { λ a b. a.first ≤ b.first };

    ghost reflexive = { λ a. le_refl a.first };

    ghost transitive = { λ a b c. le_trans };
}

impl Kept for Three {}

impl Three {
    fn of(number: u64) -> Three
        ensures { (result.first ≡ number) × (result.second ≡ number) × (result.third ≡ number) }
    {
        Three {
            first: number,
            second: number,
            third: number,
        }
    }

    fn is_whole(&self) -> bool {
        self.first == self.second && self.second == self.third
    }
}

#[derive(Drop)]
struct Writing<C: Cell<Three>> {
    put: C::Put,
}

#[derive(Drop)]
struct Reading<C: Cell<Three>> {
    get: C::Get,
    seen: Seen,
}

/// What a reader counted.
#[derive(Clone, Copy)]
struct Seen {
    reads: u64,
    torn: u64,
    older: u64,
    changes: u64,
}

impl Seen {
    fn none() -> Seen {
        Seen {
            reads: 0,
            torn: 0,
            older: 0,
            changes: 0,
        }
    }

    fn add(&mut self, last: Three, answer: Three) {
        self.reads = self.reads.saturating_add(1);
        self.torn = self.torn.saturating_add(!answer.is_whole() as u64);
        self.older = self
            .older
            .saturating_add((answer.first < last.first) as u64);
        self.changes = self
            .changes
            .saturating_add((answer.first != last.first) as u64);
    }
}

/// Writes until the flag is raised.
fn write_on<C: Cell<Three>>(cell: &C, put: &mut C::Put, done: &AtomicU64)
    requires own { C.is_put cell.now put.old }
    requires first { (last_or (C.opening cell.now) (C.written put.old)).first ≡ 0 }
    ensures { C.is_put cell.now put.new }
{
    for i in 0..u64::MAX {
        if done.load(Ordering::SeqCst) != 0 {
            break;
        }
        cell.write(put, Three::of(i + 1));
    }
}

/// Reads 1,000,000 times, and on until 1,000 answers differed from the one before. Then it raises the flag.
fn read_on<R: Wait, C: Cell<Three>>(rt: &R, cell: &C, get: &mut C::Get, done: &AtomicU64) -> Seen
    requires { C.is_get cell.now get.old }
    ensures { C.is_get cell.now get.new }
{
    let mut seen = Seen::none();
    let mut last = Three::of(0);
    for _ in rt.forever() {
        if seen.reads >= 1_000_000 && seen.changes >= 1_000 {
            break;
        }
        let answer = cell.read(get);
        seen.add(last, answer);
        last = answer;
    }
    done.store(1, Ordering::SeqCst);
    seen
}

/// The writer's task.
fn write_in<C: Cell<Three>>(cell: &C, task: &mut Writing<C>, done: &AtomicU64)
    requires own { C.is_put cell.now task.old.put }
    requires first { (last_or (C.opening cell.now) (C.written task.old.put)).first ≡ 0 }
    ensures { C.is_put cell.now task.new.put }
{
    write_on(cell, &mut task.put, done);
}

/// The reader's task.
fn read_in<R: Wait, C: Cell<Three>>(rt: &R, cell: &C, task: &mut Reading<C>, done: &AtomicU64)
    requires { C.is_get cell.now task.old.get }
    ensures { C.is_get cell.now task.new.get }
{
    task.seen = read_on(rt, cell, &mut task.get, done);
}

fn at_once<R: Threads + Wait + Sync, C: Cell<Three>>(
    rt: &R,
    cell: &C,
    done: &AtomicU64,
    writing: &mut Writing<C>,
    reading: &mut Reading<C>,
)
where
    C::Put: Send,
    C::Get: Send,
    C::Receipt: Send,
    requires own { C.is_put cell.now writing.old.put × C.is_get cell.now reading.old.get }
    requires first { (last_or (C.opening cell.now) (C.written writing.old.put)).first ≡ 0 }
    ensures { C.is_put cell.now writing.new.put × C.is_get cell.now reading.new.get }
{
    join_mut(
        rt,
        &mut ||
            requires { C.is_put cell.now writing.now.put
                × ((last_or (C.opening cell.now) (C.written writing.now.put)).first ≡ 0) }
            ensures { C.is_put cell.entry.now writing.exit.now.put }
        { write_in(cell, writing, done) },
        &mut ||
            requires { C.is_get cell.now reading.now.get }
            ensures { C.is_get cell.entry.now reading.exit.now.get }
        { read_in(rt, cell, reading, done) },
    );
}

fn under_way<R: Threads + Wait + Sync, C: Cell<Three>>(
    rt: &R,
    alloc: Global,
) -> Result<Seen, AllocError>
where
    C::Put: Send,
    C::Get: Send,
    C::Receipt: Send,
{
    let (cell, put, get) = C::make(alloc, Three::of(0))?;
    let mut writing: Writing<C> = Writing { put };
    let mut reading: Reading<C> = Reading {
        get,
        seen: Seen::none(),
    };
    let done = AtomicU64::new(0);
    at_once(rt, &cell, &done, &mut writing, &mut reading);
    let Writing { put } = writing;
    let Reading { get, seen } = reading;
    cell.finish(put, get);
    Ok(seen)
}

fn is_enough(seen: Seen) -> bool {
    seen.torn == 0 && seen.older == 0 && seen.reads >= 1_000_000 && seen.changes >= 1_000
}

#[test]
fn records_are_never_torn(rt: HostRuntime) -> Result<(), Fail> {
    let triple = under_way::<_, TripleCell<Three>>(&rt, rt.alloc())?;
    assert!(rt; is_enough(triple), "triple buffer");
    let four_slots = under_way::<_, FourSlotCell<Three>>(&rt, rt.alloc())?;
    assert!(rt; is_enough(four_slots), "four slots");
    Ok(())
}
