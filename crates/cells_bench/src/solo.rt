//! Calls on one thread.
ghost use Rattle.std.specs.Prelude.{◌≡◌, ◌≤◌};

use crate::measure::{Batch, Op, per_call, say};
use crate::record::{Record, Shared, Words};
use cell_contract::{Calls, Cell};
use std::alloc::{AllocError, Global};
use std::io;
use std::marker::PhantomData;
use std::rt::Clock;

/// Makes the calls, and gives a sum of what was read.
fn batch<W: Words, C: Calls<Record<W>>>(
    cell: &C,
    put: &mut C::Put,
    get: &mut C::Get,
    op: Op,
    calls: u64,
) -> u64
    requires { C.is_put cell.now put.old × C.is_get cell.now get.old }
    ensures { C.is_put cell.now put.new × C.is_get cell.now get.new }
{
    match op {
        Op::Write => write(cell, put, calls),
        Op::Read => read(cell, get, calls),
        Op::Look => look(cell, get, calls),
        Op::Round => round(cell, put, get, calls),
    }
}

/// A write and a read of its record, so many times.
fn round<W: Words, C: Calls<Record<W>>>(
    cell: &C,
    put: &mut C::Put,
    get: &mut C::Get,
    times: u64,
) -> u64
    requires { C.is_put cell.now put.old × C.is_get cell.now get.old }
    ensures { C.is_put cell.now put.new × C.is_get cell.now get.new }
{
    let mut item = Record::<W>::zero();
    let mut sum = 0;
    for number in 0..times {
        item.mark(number);
        cell.write_from(put, &item);
        sum |= cell.read(get).word(number);
    }
    sum
}

fn write<W: Words, C: Calls<Record<W>>>(cell: &C, put: &mut C::Put, calls: u64) -> u64
    requires { C.is_put cell.now put.old }
    ensures { C.is_put cell.now put.new }
{
    let mut item = Record::<W>::zero();
    for number in 0..calls {
        item.mark(number);
        cell.write_from(put, &item);
    }
    0
}

fn read<W: Words, C: Calls<Record<W>>>(cell: &C, get: &mut C::Get, calls: u64) -> u64
    requires { C.is_get cell.now get.old }
    ensures { C.is_get cell.now get.new }
{
    let mut sum = 0;
    for number in 0..calls {
        sum |= cell.read(get).word(number);
    }
    sum
}

/// Reads in place: a word of each record.
fn look<W: Words, C: Calls<Record<W>>>(cell: &C, get: &mut C::Get, calls: u64) -> u64
    requires { C.is_get cell.now get.old }
    ensures { C.is_get cell.now get.new }
{
    let mut sum = 0;
    for number in 0..calls {
        sum |= cell.read_with(get, |record| record.word(number));
    }
    sum
}

/// One cell and the calls, nothing else.
pub fn calls<W: Shared, C: Cell<Record<W>>>(
    alloc: Global,
    op: Op,
    calls: u64,
) -> Result<u64, AllocError> {
    let (cell, mut put, mut get) = C::make(alloc, Record::zero())?;
    Ok(batch(&cell, &mut put, &mut get, op, calls))
}

/// A cell with its two passes.
#[derive(Drop)]
struct Alone<W: Words, C: Calls<Record<W>>> {
    cell: C,
    put: C::Put,
    get: C::Get,
    of: PhantomData<W>,
}

impl<W: Words, C: Calls<Record<W>>> Batch for Alone<W, C> {
    ghost ready = { λ s. C.is_put s.cell s.put × C.is_get s.cell s.get };

    fn batch(&mut self, op: Op, calls: u64) -> u64 {
        batch(&self.cell, &mut self.put, &mut self.get, op, calls)
    }
}

/// The picoseconds of one call of a new cell.
fn time<W: Shared, C: Cell<Record<W>>>(rt: &impl Clock, alloc: Global, op: Op) -> io::Result<u64> {
    let (cell, put, get) = C::make(alloc, Record::zero())?;
    let mut alone: Alone<W, C> = Alone {
        cell,
        put,
        get,
        of: PhantomData,
    };
    per_call(rt, alloc, &mut alone, op)
}

pub fn run<R: Clock + Print, W: Shared, C: Cell<Record<W>>>(
    rt: &R,
    alloc: Global,
    name: &str,
    bytes: u64,
) -> io::Result<()> {
    let write = time::<W, C>(rt, alloc, Op::Write)?;
    let read = time::<W, C>(rt, alloc, Op::Read)?;
    say(rt, name, bytes, "solo", "write_ns", write)?;
    say(rt, name, bytes, "solo", "read_ns", read)
}
