//! Tasks over a board, each in a thread of its own.
ghost use Rattle.std.specs.Prelude.{◌≡◌, ℕ, All, IfOk, length, map, slice_get};
ghost use Rattle.board_tasks.specs.Logs.{Obeys};
ghost use Rattle.history_core.specs.declared.wish.Wish.TheVariants.{Write};
ghost use Rattle.soak_rounds.specs.Findings.{counted};
ghost use Rattle.soak_rounds.specs.Records.{IsWholeRecord, no_law};
ghost use Rattle.soak_rounds.specs.Scripts.{is_seen, is_written, IsRound, IsTally, reads_of, Scripted, writes_of};

use crate::record::{Record, Shared, Words};
use crate::{Finding, Tally};
use board_live::{Board, Posted};
use board_tasks::{Entry, Lane, OpenGate, Origin, Reply, check_origin, make_lanes, run_tasks};
use cell_contract::{Family, SharedFamily};
use history_core::{Items, MAX_LIMIT, Wish};
use matrix_core::Stamp;
use std::alloc::{AllocError, Global};
use std::thread::Threads;

/// The write with this number.
fn write<W: Words>(number: u64) -> Wish<Record<W>>
    ensures lawful { Obeys no_law result }
    ensures write { (x : _) × (result ≡ Write x) × IsWholeRecord (W.listed x.words) number }
{
    Wish::Write(Record::of(number))
}

/// Writes and reads by turns. The numbers of the writes are `first` and every `step`-th after it.
fn script<W: Words + Drop>(
    alloc: Global,
    first: u64,
    step: u64,
    calls: u64,
) -> Result<Items<Wish<Record<W>>>, AllocError>
    ensures lawful { IfOk result (λ s. All (Obeys no_law) s) }
    ensures scripted { IfOk result (λ s. (next : ℕ) × Scripted (λ x. W.listed x.words) first step calls next s) }
{
    let mut wishes = Vec::new(alloc);
    let mut number = first;
    for _ in 0..calls {
        wishes.push(write(number))?;
        wishes.push(Wish::Read)?;
        number = number.saturating_add(step);
    }
    Ok(Items::new(wishes))
}

/// A script for each task, with numbers above `from` that are all different.
fn scripts<W: Words + Drop>(
    alloc: Global,
    tasks: usize,
    from: u64,
    calls: u64,
) -> Result<Items<Items<Wish<Record<W>>>>, AllocError>
    ensures lawful { IfOk result (λ s. All (λ t. All (Obeys no_law) t) s) }
    ensures count { IfOk result (λ s. length s ≡ tasks) }
    ensures scripted { IfOk result (λ s. (k : ℕ) (t : _) → slice_get s k ≡ Some t
        → (next : ℕ) × Scripted (λ x. W.listed x.words) (counted (counted from k) 1) tasks calls next t) }
{
    let mut all = Vec::new(alloc);
    for task in 0..tasks {
        let first = from.saturating_add(task as u64).saturating_add(1);
        all.push(script(alloc, first, tasks as u64, calls)?)?;
    }
    Ok(Items::new(all))
}

/// What is wrong with the entry that has no origin.
fn finding<W: Words>(log: &[Entry<Record<W>>], call: usize) -> Finding {
    let place = call.saturating_sub(1);
    let Some(entry) = log.get(place) else {
        return Finding::Foreign;
    };
    if let Reply::Seen(posted) | Reply::Ended(posted) = entry.reply {
        if posted.item.number().is_none() {
            return Finding::Torn;
        }
    }
    match log.get(place.saturating_sub(1)) {
        Some(before) if entry.reply.stamp() < before.reply.stamp() => Finding::Older,
        _ => Finding::Foreign,
    }
}

/// What is wrong with an entry of one of the lanes, which has no origin.
fn finding_at<W: Words, F: Family<Posted<Record<W>>>>(
    lanes: &[Lane<Record<W>, F>],
    task: usize,
    call: usize,
) -> Finding {
    match lanes.get(task) {
        Some(lane) => finding(lane.log(), call),
        None => Finding::Foreign,
    }
}

fn is_written<W: Words>(entry: &Entry<Record<W>>) -> bool
    ensures { result ≡ is_written entry.now.reply }
{
    matches!(entry.reply, Reply::Written(_))
}

fn is_seen<W: Words>(entry: &Entry<Record<W>>) -> bool
    ensures { result ≡ is_seen entry.now.reply }
{
    !matches!(entry.reply, Reply::Written(_))
}

fn writes_of<W: Words>(log: &[Entry<Record<W>>]) -> u64
    ensures { result ≡ writes_of log.now }
{
    log.iter().filter(|entry| is_written(entry)).count() as u64
}

fn reads_of<W: Words>(log: &[Entry<Record<W>>]) -> u64
    ensures { result ≡ reads_of log.now }
{
    log.iter().filter(|entry| is_seen(entry)).count() as u64
}

/// The writes and reads of the lanes, and the first wrong record. Nothing is found exactly where every
/// record in the logs has its origin.
fn look<W: Shared, F: Family<Posted<Record<W>>>>(
    opening: Record<W>,
    lanes: &[Lane<Record<W>, F>],
) -> Tally
    ensures { IsTally ⟦<Record<W> as PartialEq>⟧.eq opening (map (λ l. l.log.items) lanes.now) result }
{
    let mut writes = 0u64;
    let mut reads = 0u64;
    for lane in lanes {
        writes = writes.saturating_add(writes_of(lane.log()));
        reads = reads.saturating_add(reads_of(lane.log()));
    }
    let found = match check_origin(opening, lanes) {
        Origin::Sound => None,
        Origin::Broken { task, call } => Some(finding_at(lanes, task, call)),
    };
    Tally {
        writes,
        reads,
        found,
    }
}

/// One round on a board that opens with this record: what was found, and the greatest record at its end.
pub fn round<R: Threads + Sync, W: Shared + Drop, F: SharedFamily<Posted<Record<W>>>>(
    rt: &R,
    alloc: Global,
    tasks: usize,
    opening: Record<W>,
    from: u64,
    calls: u64,
) -> Result<(Tally, Record<W>), AllocError>
where
    F::Seat: Send,
    F::Receipt: Send,
    ensures { IfOk result
        (λ r. IsRound (λ x. W.listed x.words) ⟦<Record<W> as PartialEq>⟧.eq opening tasks from calls r.0) }
{
    let Ok((board, passes)) = Board::<Record<W>, F>::new(alloc, tasks, MAX_LIMIT, opening) else {
        return Err(AllocError);
    };
    let scripts = scripts(alloc, tasks, from, calls)?;
    let mut lanes = make_lanes(alloc, passes, scripts)?;
    run_tasks(rt, &board, lanes.as_mut_slice(), &OpenGate);
    let tally = look(opening, lanes.as_slice());
    let mut last = Posted {
        stamp: Stamp { tag: 0, writer: 0 },
        item: opening,
    };
    for _ in 0..lanes.len() {
        if let Some(lane) = lanes.pop() {
            let own = lane.into_pass().own();
            if last.stamp < own.stamp {
                last = own;
            }
        }
    }
    Ok((tally, last.item))
}
