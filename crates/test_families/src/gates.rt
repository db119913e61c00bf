//! The gates that come with the crate, and what a gate is asked and told.
ghost use Rattle.std.specs.Prelude.{◌≡◌};

use board_live::{Posted, RecordLaw};
use board_tasks::{CountingGate, Entry, Gate, Lane, TimedGate};
use board_teams::run_plans;
use cell_contract::{Family, SharedFamily};
use history_core::Band;
use std::alloc::{AllocError, Global};
use std::sync::atomic::{AtomicBool, AtomicU64, Ordering};
use std::thread::Threads;

/// How many calls all lanes have made.
pub fn made<F: Family<Posted<Band>>>(lanes: &[Lane<Band, F>]) -> u64 {
    let mut made = 0u64;
    for lane in lanes {
        made = made.saturating_add(lane.log().len() as u64);
    }
    made
}

/// Runs the plans on a board, and gives how many calls were made.
fn run<R: Threads + Sync, F: SharedFamily<Posted<Band>>, G: Gate + Sync>(
    rt: &R,
    alloc: Global,
    plans: &[&[u64]],
    gate: &G,
) -> Result<u64, AllocError>
where
    F::Seat: Send,
    F::Receipt: Send,
{
    let crew = run_plans::<R, F, G>(rt, alloc, 9, plans, gate)?;
    Ok(made(crew.lanes.as_slice()))
}

const FIVE: &[&[u64]] = &[&[1, 0, 2], &[0, 0], &[]];

/// How many calls were made, and how many the gate counted.
fn counted<R: Threads + Sync, F: SharedFamily<Posted<Band>>>(
    rt: &R,
    alloc: Global,
) -> Result<(u64, u64), AllocError>
where
    F::Seat: Send,
    F::Receipt: Send,
{
    let gate = CountingGate::new();
    let calls = run::<R, F, CountingGate>(rt, alloc, FIVE, &gate)?;
    Ok((calls, gate.made()))
}

/// Looks for permits that are held: none of a task may be out when it asks for its next call, and none at all in the
/// end. A call is counted with its reply, and no earlier; the tags of all replies are added up.
#[derive(Drop)]
struct Held {
    counts: CountingGate,
    out: [AtomicBool; 3],
    tags: AtomicU64,
    wrong: AtomicBool,
}

impl Held {
    fn new() -> Held {
        Held {
            counts: CountingGate::new(),
            out: [
                AtomicBool::new(false),
                AtomicBool::new(false),
                AtomicBool::new(false),
            ],
            tags: AtomicU64::new(0),
            wrong: AtomicBool::new(false),
        }
    }

    /// Notes whether the task's permit is out, and what was wrong before.
    fn note(&self, task: usize, is_out: bool) {
        let Some(out) = self.out.get(task) else {
            self.wrong.store(true, Ordering::SeqCst);
            return;
        };
        if out.swap(is_out, Ordering::SeqCst) == is_out {
            self.wrong.store(true, Ordering::SeqCst);
        }
    }

    /// Whether a permit is out.
    fn is_one_out(&self) -> bool {
        let mut out = false;
        for flag in &self.out {
            out = out | flag.load(Ordering::SeqCst);
        }
        out
    }
}

impl Gate for Held {
    type Permit = ();

    ghost is_for = { λ _ _ _ _. Unit {0} };

    ghost may_stop = { λ _ _ _. ⊥ };

    fn before(&self, task: usize, call: usize) -> Option<()> {
        self.note(task, true);
        self.counts.before(task, call)
    }

    fn after<V: RecordLaw, F: Family<Posted<V>>>(
        &self,
        task: usize,
        call: usize,
        entry: &Entry<V>,
        _permit: (),
    ) {
        self.note(task, false);
        let counted = self.counts.made();
        self.counts.after::<V, F>(task, call, entry, ());
        if self.counts.made() <= counted {
            self.wrong.store(true, Ordering::SeqCst);
        }
        self.tags
            .fetch_add(entry.reply.stamp().tag, Ordering::SeqCst);
    }
}

/// One task writes, reads and writes; the others have nothing to do.
const ONE: &[&[u64]] = &[&[1, 0, 2], &[], &[]];

/// The calls of the task, the sum of the tags of its replies, and whether a permit was held too long.
fn held_in<R: Threads + Sync, F: SharedFamily<Posted<Band>>>(
    rt: &R,
    alloc: Global,
    plans: &[&[u64]],
) -> Result<(u64, u64, bool), AllocError>
where
    F::Seat: Send,
    F::Receipt: Send,
{
    let gate = Held::new();
    run::<R, F, Held>(rt, alloc, plans, &gate)?;
    let wrong = gate.wrong.load(Ordering::SeqCst) | gate.is_one_out();
    Ok((gate.counts.made(), gate.tags.load(Ordering::SeqCst), wrong))
}

const EIGHTY: &[&[u64]] = &[&[0; 40], &[0; 40]];

/// Whether time is up for all tasks after so many turns.
fn is_up<R: Threads + Sync, F: SharedFamily<Posted<Band>>>(
    rt: &R,
    alloc: Global,
    turns: u64,
) -> Result<bool, AllocError>
where
    F::Seat: Send,
    F::Receipt: Send,
{
    let gate = TimedGate::new(turns);
    Ok(run::<R, F, TimedGate>(rt, alloc, EIGHTY, &gate)? == turns.min(80))
}

fn time_is_up<R: Threads + Sync, F: SharedFamily<Posted<Band>>>(
    rt: &R,
    alloc: Global,
) -> Result<bool, AllocError>
where
    F::Seat: Send,
    F::Receipt: Send,
{
    for turns in [0, 1, 50, 80, 90] {
        if !is_up::<R, F>(rt, alloc, turns)? {
            return Ok(false);
        }
    }
    Ok(true)
}

/// The call of a task, as its gate was asked about it.
struct Asked {
    task: usize,
    call: usize,
}

/// Adds up the numbers that it is asked about and told of: 100 for each task, counted from
/// 0, and the number of the call.
#[derive(Drop)]
struct Numbers {
    asked: AtomicU64,
    told: AtomicU64,
}

fn number(task: usize, call: usize) -> u64 {
    (task as u64).wrapping_mul(100).wrapping_add(call as u64)
}

impl Gate for Numbers {
    type Permit = Asked;

    ghost is_for = { λ _ task call asked. (asked.task ≡ task) × (asked.call ≡ call) };

    ghost may_stop = { λ _ _ _. ⊥ };

    fn before(&self, task: usize, call: usize) -> Option<Asked> {
        self.asked.fetch_add(number(task, call), Ordering::SeqCst);
        Some(Asked { task, call })
    }

    fn after<V: RecordLaw, F: Family<Posted<V>>>(
        &self,
        task: usize,
        call: usize,
        _entry: &Entry<V>,
        asked: Asked,
    ) {
        let Asked {
            task: asked_task,
            call: asked_call,
        } = asked;
        prove!(asked_task == task && asked_call == call);
        self.told.fetch_add(number(task, call), Ordering::SeqCst);
    }
}

const SIX: &[&[u64]] = &[&[1, 0, 2], &[0, 0], &[], &[0]];

const SUM_OF_SIX: u64 = 1 + 2 + 3 + 101 + 102 + 301;

/// The sums of a gate that was asked about six calls, and told of them.
fn sums<R: Threads + Sync, F: SharedFamily<Posted<Band>>>(
    rt: &R,
    alloc: Global,
) -> Result<(u64, u64), AllocError>
where
    F::Seat: Send,
    F::Receipt: Send,
{
    let gate = Numbers {
        asked: AtomicU64::new(0),
        told: AtomicU64::new(0),
    };
    run::<R, F, Numbers>(rt, alloc, SIX, &gate)?;
    let asked = gate.asked.load(Ordering::SeqCst);
    Ok((asked, gate.told.load(Ordering::SeqCst)))
}

/// What gates of tasks over this family don't keep.
pub fn wrong_gate<R: Threads + Sync, F: SharedFamily<Posted<Band>>>(
    rt: &R,
    alloc: Global,
) -> Result<Option<&'static str>, AllocError>
where
    F::Seat: Send,
    F::Receipt: Send,
{
    if counted::<R, F>(rt, alloc)? != (5, 5) {
        return Ok(Some("calls are counted"));
    }
    if held_in::<R, F>(rt, alloc, ONE)? != (3, 1 + 1 + 2, false) {
        return Ok(Some("a permit is held, or a call counted, without its reply"));
    }
    let (calls, _tags, wrong) = held_in::<R, F>(rt, alloc, FIVE)?;
    if calls != 5 || wrong {
        return Ok(Some("three tasks hold a permit too long"));
    }
    if !time_is_up::<R, F>(rt, alloc)? {
        return Ok(Some("time is up for all tasks"));
    }
    if sums::<R, F>(rt, alloc)? != (SUM_OF_SIX, SUM_OF_SIX) {
        return Ok(Some("tasks count from 0 and calls from 1"));
    }
    Ok(None)
}
