//! The record and the task of each operation that has to stand.

ghost use Rattle.std.specs.Prelude.{◌≡◌, ◌+◌, ◌≤◌, ℕ, IfOk, length, map, replicate};
ghost use Rattle.history_coherence.specs.inner.Keys.{AreMet, AreUpTo, finished_record, is_met, key_of, NumbersUpTo};
ghost use Rattle.history_coherence.specs.inner.Keys.{task_of, written_record};

use history_core::{Kind, Op};
use std::alloc::{AllocError, Global};

/// A number that no record is above.
pub(crate) fn greatest_record(log: &[Op<usize>]) -> usize
    ensures { AreUpTo log.now result }
{
    let mut greatest = 0;
    for op in log {
        greatest = greater(greatest, op.item);
    }
    greatest
}

fn greater(greatest: usize, item: Option<usize>) -> usize
    ensures up { greatest ≤ result }
    ensures above { (x : ℕ) → item ≡ Some x → x ≤ result }
{
    match item {
        Some(record) => greatest.max(record),
        None => greatest,
    }
}

/// A value for each number up to the greatest.
pub(crate) fn blank<T: Copy>(alloc: Global, value: T, greatest: usize) -> Result<Vec<T>, AllocError>
    ensures { IfOk result (λ v. v.items ≡ replicate (greatest + 1) value) }
{
    let mut values = Vec::new(alloc);
    values.push(value)?;
    for _ in 0..greatest {
        values.push(value)?;
    }
    Ok(values)
}

/// The records of finished operations.
pub(crate) fn finished_records(
    alloc: Global,
    log: &[Op<usize>],
) -> Result<Vec<Option<usize>>, AllocError>
    ensures { IfOk result (λ v. v.items ≡ map finished_record log.now) }
{
    log.iter().map(|op| finished_record(op)).collect(alloc)
}

fn finished_record(op: &Op<usize>) -> Option<usize>
    ensures { result ≡ finished_record op.now }
{
    if op.ends.is_some() { op.item } else { None }
}

/// The records of writes.
pub(crate) fn written_records(
    alloc: Global,
    log: &[Op<usize>],
) -> Result<Vec<Option<usize>>, AllocError>
    ensures { IfOk result (λ v. v.items ≡ map written_record log.now) }
{
    log.iter().map(|op| written_record(op)).collect(alloc)
}

fn written_record(op: &Op<usize>) -> Option<usize>
    ensures { result ≡ written_record op.now }
{
    match op.kind {
        Kind::Write => op.item,
        Kind::Read | Kind::Refused => None,
    }
}

/// Which numbers there are.
pub(crate) fn met_numbers(
    alloc: Global,
    numbers: &[Option<usize>],
    greatest: usize,
) -> Result<Vec<bool>, AllocError>
    requires { NumbersUpTo numbers.now greatest }
    ensures met { IfOk result (λ v. AreMet numbers.now (length numbers.now) v.items) }
    ensures long { IfOk result (λ v. length v.items ≡ greatest + 1) }
{
    let mut met = blank(alloc, false, greatest)?;
    for place in 0..numbers.len() {
        if let Some(number) = numbers[place] {
            met[number] = true;
        }
    }
    Ok(met)
}

pub(crate) fn is_met(met: &[bool], number: usize) -> bool
    ensures { result ≡ is_met met.now number }
{
    met.get(number).copied().unwrap_or(false)
}

/// The record of each operation that has to stand, where these are asked for.
pub(crate) fn keys_of(
    alloc: Global,
    log: &[Op<usize>],
    asked: &[bool],
) -> Result<Vec<Option<usize>>, AllocError>
    ensures { IfOk result (λ v. v.items ≡ map (key_of asked.now) log.now) }
{
    log.iter().map(|op| key_of(asked, op)).collect(alloc)
}

fn key_of(asked: &[bool], op: &Op<usize>) -> Option<usize>
    ensures { result ≡ key_of asked.now op.now }
{
    if op.ends.is_some() {
        return op.item;
    }
    let record = written_record(op)?;
    if is_met(asked, record) {
        Some(record)
    } else {
        None
    }
}

/// The task of each operation that has to stand.
pub(crate) fn tasks_of(
    alloc: Global,
    log: &[Op<usize>],
    asked: &[bool],
) -> Result<Vec<Option<usize>>, AllocError>
    ensures { IfOk result (λ v. v.items ≡ map (task_of asked.now) log.now) }
{
    log.iter().map(|op| task_of(asked, op)).collect(alloc)
}

fn task_of(asked: &[bool], op: &Op<usize>) -> Option<usize>
    ensures { result ≡ task_of asked.now op.now }
{
    match key_of(asked, op) {
        Some(_) => Some(op.who),
        None => None,
    }
}
