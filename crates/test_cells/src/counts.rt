//! The rows of the running cells, over each cell.
ghost use Rattle.std.specs.Prelude.{◌≡◌, ◌≤◌, ◌<◌, ◌+◌, ◌^◌, []};
ghost use Rattle.std.proofs.Common.{le_refl, le_trans};
ghost use Rattle.cell_contract.specs.Running.{last_or};

use cell_contract::{Calls, Cell, Kept, Lawful};
use cell_four_slot::FourSlotCell;
use cell_triple::TripleCell;
use std::alloc::{AllocError, Global};
use std::test::Fail;
use std::thread::{Threads, join_mut};

mod beside;

#[derive(Clone, Copy)]
struct Count(u64);

impl Lawful for Count {
    ghost fits = { λ _. Unit {0} };

    ghost rises = { λ a b. a.0 ≤ b.0 };

    ghost reflexive = { λ a. le_refl a.0 };

    ghost transitive = { λ a b c. le_trans };
}

impl Kept for Count {}

fn in_one_thread<C: Cell<Count>>(alloc: Global) -> Result<[u64; 5], AllocError> {
    let (cell, mut put, mut get) = C::make(alloc, Count(0))?;
    let first = cell.read(&mut get).0;
    cell.write(&mut put, Count(1));
    cell.write(&mut put, Count(2));
    let second = cell.read(&mut get).0;
    let third = cell.read(&mut get).0;
    let receipt = cell.tell(&mut put);
    cell.learn(&mut get, receipt);
    let told = cell.read(&mut get).0;
    cell.write(&mut put, Count(3));
    let last = cell.read(&mut get).0;
    cell.finish(put, get);
    Ok([first, second, third, told, last])
}

// A task owns its pass.
#[derive(Drop)]
struct Writing<C: Cell<Count>> {
    put: C::Put,
}

#[derive(Drop)]
struct Reading<C: Cell<Count>> {
    get: C::Get,
    wrong: u64,
}

/// Writes from 1 up to the number given.
fn write_up_to<C: Cell<Count>>(cell: &C, put: &mut C::Put, most: u64)
    requires own { C.is_put cell.now put.old }
    requires first { (last_or (C.opening cell.now) (C.written put.old)).0 ≤ 1 }
    ensures { C.is_put cell.now put.new }
{
    for i in 0..most {
        cell.write(put, Count(i + 1));
    }
}

/// Makes the reads, and counts the answers that are out of order or out of bounds.
fn read_often<C: Cell<Count>>(cell: &C, get: &mut C::Get, reads: u64, most: u64) -> u64
    requires { C.is_get cell.now get.old }
    ensures { C.is_get cell.now get.new }
{
    let (mut last, mut wrong) = (0, 0u64);
    for _ in 0..reads {
        let answer = cell.read(get).0;
        wrong = wrong.saturating_add((answer < last || answer > most) as u64);
        last = answer;
    }
    wrong
}

/// The writer's task.
fn write_in<C: Cell<Count>>(cell: &C, task: &mut Writing<C>)
    requires own { C.is_put cell.now task.old.put }
    requires first { (last_or (C.opening cell.now) (C.written task.old.put)).0 ≤ 1 }
    ensures { C.is_put cell.now task.new.put }
{
    write_up_to(cell, &mut task.put, 1_000);
}

/// The reader's task.
fn read_in<C: Cell<Count>>(cell: &C, task: &mut Reading<C>)
    requires { C.is_get cell.now task.old.get }
    ensures { C.is_get cell.now task.new.get }
{
    task.wrong = read_often(cell, &mut task.get, 1_000, 1_000);
}

/// One thread writes 1 to 1,000 and another reads 1,000 times.
fn at_once<R: Threads + Sync, C: Cell<Count>>(
    rt: &R,
    cell: &C,
    writing: &mut Writing<C>,
    reading: &mut Reading<C>,
)
where
    C::Put: Send,
    C::Get: Send,
    C::Receipt: Send,
    requires own { C.is_put cell.now writing.old.put × C.is_get cell.now reading.old.get }
    requires first { (last_or (C.opening cell.now) (C.written writing.old.put)).0 ≤ 1 }
    ensures { C.is_put cell.now writing.new.put × C.is_get cell.now reading.new.get }
{
    join_mut(
        rt,
        &mut ||
            requires { C.is_put cell.now writing.now.put
                × ((last_or (C.opening cell.now) (C.written writing.now.put)).0 ≤ 1) }
            ensures { C.is_put cell.entry.now writing.exit.now.put }
        { write_in(cell, writing) },
        &mut ||
            requires { C.is_get cell.now reading.now.get }
            ensures { C.is_get cell.entry.now reading.exit.now.get }
        { read_in(cell, reading) },
    );
}

/// Gives the number of wrong answers, and the answer of one read after both threads.
fn in_two_threads<R: Threads + Sync, C: Cell<Count>>(
    rt: &R,
    alloc: Global,
) -> Result<(u64, u64), AllocError>
where
    C::Put: Send,
    C::Get: Send,
    C::Receipt: Send,
{
    let (cell, put, get) = C::make(alloc, Count(0))?;
    let mut writing: Writing<C> = Writing { put };
    let mut reading: Reading<C> = Reading { get, wrong: 0 };
    at_once(rt, &cell, &mut writing, &mut reading);
    let Writing { put } = writing;
    let Reading { mut get, wrong } = reading;
    let last = cell.read(&mut get).0;
    cell.finish(put, get);
    Ok((wrong, last))
}

/// The reader's pass is dropped, and the writer goes on.
fn without_reader<C: Cell<Count>>(alloc: Global) -> Result<u64, AllocError> {
    let (cell, mut put, mut get) = C::make(alloc, Count(0))?;
    cell.write(&mut put, Count(1));
    let answer = cell.read(&mut get).0;
    drop(get);
    write_up_to(&cell, &mut put, 100_000);
    Ok(answer)
}

/// What the cell gives in one thread, without its reader, and in two threads.
type Given = ([u64; 5], u64, (u64, u64));

fn given<R: Threads + Sync, C: Cell<Count>>(rt: &R, alloc: Global) -> Result<Given, AllocError>
where
    C::Put: Send,
    C::Get: Send,
    C::Receipt: Send,
{
    let alone = in_one_thread::<C>(alloc)?;
    let dropped = without_reader::<C>(alloc)?;
    Ok((alone, dropped, in_two_threads::<R, C>(rt, alloc)?))
}

const GIVEN: Given = ([0, 2, 2, 2, 3], 1, (0, 1_000));

#[test]
fn counts_in_triple(rt: HostRuntime) -> Result<(), Fail> {
    assert!(rt; given::<_, TripleCell<Count>>(&rt, rt.alloc())? == GIVEN);
    Ok(())
}

#[test]
fn counts_in_four_slots(rt: HostRuntime) -> Result<(), Fail> {
    assert!(rt; given::<_, FourSlotCell<Count>>(&rt, rt.alloc())? == GIVEN);
    Ok(())
}
