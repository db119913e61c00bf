//! The records that are held: those of the states, and those that operations name.
ghost use Rattle.std.specs.Prelude.{◌≡◌, ◌↔◌, ℕ, IfOk, IsTrue, OnOk};
ghost use Rattle.std.specs.BTreeSet.{contains};
ghost use Rattle.std.specs.Ordering.{nat_cmp};
ghost use Rattle.watch_lines.specs.Kept.{AddsTo, AreNaming, IsHeldRecord, Names};

use crate::lined::{Lined, LinedRegister};
use object_core::Operation;
use object_registers::Exchange;
use object_watch::Remainder;
use std::alloc::{AllocError, Global};
use std::collections::BTreeSet;

/// The numbers of the records that are held.
pub(crate) fn held_numbers(
    alloc: Global,
    held: &[Remainder<LinedRegister, Lined>],
) -> Result<BTreeSet<u64>, AllocError>
    ensures { IfOk result (λ numbers. (n : ℕ) → IsTrue (contains nat_cmp numbers n) ↔ IsHeldRecord held.now n) }
{
    let mut numbers = BTreeSet::new(alloc);
    for i in 0..held.len() {
        let one = &held[i];
        add(&mut numbers, one.state.register.held)?;
        add_all(&mut numbers, one.rest.as_slice())?;
    }
    Ok(numbers)
}

/// Adds those that these operations name.
fn add_all(numbers: &mut BTreeSet<u64>, ops: &[Operation<Lined>]) -> Result<(), AllocError>
    ensures { OnOk result (AddsTo numbers.old numbers.new (AreNaming ops.now)) }
{
    for i in 0..ops.len() {
        add_named(numbers, ops[i].what.what)?;
    }
    Ok(())
}

/// Adds those that this names.
fn add_named(numbers: &mut BTreeSet<u64>, what: Exchange) -> Result<(), AllocError>
    ensures { OnOk result (AddsTo numbers.old numbers.new (Names what)) }
{
    match what {
        Exchange::Sets(one)
        | Exchange::Gets(one)
        | Exchange::Misses(one)
        | Exchange::Refuses(one) => add(numbers, one),
        Exchange::Swaps(one, other) | Exchange::Finds(one, other) | Exchange::Tries(one, other) => {
            add(numbers, one)?;
            add(numbers, other)
        }
    }
}

fn add(numbers: &mut BTreeSet<u64>, number: u64) -> Result<(), AllocError>
    ensures { OnOk result (AddsTo numbers.old numbers.new (λ n. n ≡ number)) }
{
    numbers.insert(number)?;
    Ok(())
}
