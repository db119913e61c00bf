//! Whether a log has a lawful order from some record or other.

ghost use Rattle.std.specs.Prelude.{◌≡◌, ◌++◌, ◌∷◌, [], if◌then◌else◌, false, IfOk, MatchResult, OnOk};
ghost use Rattle.object_sweep.specs.Reached.{is_in};
ghost use Rattle.object_sweep.specs.Verdicts.{IsSweepFault};
ghost use Rattle.object_window.specs.Losses.{asked_of, IsLoss};
ghost use Rattle.object_window.specs.inner.Openings.{HaveAsked, HaveOneMore, IsLossFrom, StandForAll};

use object_core::Operation;
use object_registers::{Exchange, Exchanging};
use object_sweep::{SweepError, Verdict, sweep};
use std::alloc::{AllocError, Global};

/// What is known of the records that a log may begin with.
#[derive(Clone, Copy, Debug, PartialEq, Eq, Drop)]
pub enum Loss {
    /// It has no lawful order, whatever the register held before.
    Anywhere,
    /// It has one from this record.
    NotFrom { held: u64 },
    /// From this record there are more configurations than the budget at the end of the operation at this place.
    TooMany { held: u64, place: usize },
}

/// Whether a log has no lawful order, whatever the register held before: the sweep goes over it from each record that
/// an operation asks for, and from one other.
pub fn loss_of(
    alloc: Global,
    log: &[Operation<Exchange>],
    budget: usize,
) -> Result<Loss, SweepError>
    ensures { MatchResult result (IsLoss log.now budget) (IsSweepFault log.now) }
{
    match openings_of(alloc, log) {
        Ok(openings) => loss_from(alloc, openings.as_slice(), log, budget),
        Err(_) => Err(SweepError::NoMemory),
    }
}

/// From which of these records it is lost.
fn loss_from(
    alloc: Global,
    openings: &[u64],
    log: &[Operation<Exchange>],
    budget: usize,
) -> Result<Loss, SweepError>
    requires { StandForAll log.now openings.now }
    ensures { MatchResult result (IsLoss log.now budget) (IsSweepFault log.now) }
{
    for i in 0..openings.len() {
        if let Some(loss) = loss_at(alloc, openings[i], log, budget)? {
            return Ok(loss);
        }
    }
    Ok(Loss::Anywhere)
}

/// What is known from this record; nothing where the log is lost.
fn loss_at(
    alloc: Global,
    held: u64,
    log: &[Operation<Exchange>],
    budget: usize,
) -> Result<Option<Loss>, SweepError>
    ensures { MatchResult result (IsLossFrom log.now budget held) (IsSweepFault log.now) }
{
    match sweep(alloc, Exchanging { held }, log, budget) {
        Ok(Verdict::Lawful) => Ok(Some(Loss::NotFrom { held })),
        Ok(Verdict::Unlawful { place: _ }) => Ok(None),
        Ok(Verdict::TooMany { place }) => Ok(Some(Loss::TooMany { held, place })),
        Err(fault) => Err(fault),
    }
}

/// The records that are asked for, and one other.
fn openings_of(alloc: Global, log: &[Operation<Exchange>]) -> Result<Vec<u64>, AllocError>
    ensures { IfOk result (λ v. StandForAll log.now v.items) }
{
    let mut openings = asked_in(alloc, log)?;
    let other = other_than(openings.as_slice());
    openings.push(other)?;
    Ok(openings)
}

/// The records that are asked for.
fn asked_in(alloc: Global, log: &[Operation<Exchange>]) -> Result<Vec<u64>, AllocError>
    ensures { IfOk result (λ v. HaveAsked log.now v.items) }
{
    let mut records = Vec::new(alloc);
    for place in 0..log.len() {
        push_asked(&mut records, &log[place])?;
    }
    Ok(records)
}

fn push_asked(records: &mut Vec<u64>, op: &Operation<Exchange>) -> Result<(), AllocError>
    ensures { OnOk result (HaveOneMore records.old.items records.new.items op.now.what) }
{
    match asked(op.what) {
        Some(value) => push_new(records, value),
        None => Ok(()),
    }
}

fn push_new(records: &mut Vec<u64>, value: u64) -> Result<(), AllocError>
    ensures { OnOk result (records.new.items ≡ (if is_in value records.old.items then records.old.items
        else records.old.items ++ value ∷ [])) }
{
    if is_in(value, records.as_slice()) {
        Ok(())
    } else {
        records.push(value)?;
        Ok(())
    }
}

fn is_in(value: u64, records: &[u64]) -> bool
    ensures { result ≡ is_in value records.now }
{
    records.contains(&value)
}

/// The record that an operation asks for.
fn asked(what: Exchange) -> Option<u64>
    ensures { result ≡ asked_of what }
{
    match what {
        Exchange::Sets(_) => None,
        Exchange::Gets(seen) => Some(seen),
        Exchange::Swaps(from, _) => Some(from),
        Exchange::Misses(from) => Some(from),
        Exchange::Finds(_, found) => Some(found),
        Exchange::Tries(from, _) => Some(from),
        Exchange::Refuses(seen) => Some(seen),
    }
}

/// A record that isn't among these.
fn other_than(records: &[u64]) -> u64
    ensures { is_in result records.now ≡ false }
{
    for n in 0..records.len() {
        if !is_in(n as u64, records) {
            return n as u64;
        }
    }
    records.len() as u64
}
