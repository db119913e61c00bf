//! Tasks that go on only where all of them run at once: each waits for all others, so a program that runs two of them
//! in one thread can't pass it.
ghost use Rattle.std.specs.Prelude.{◌≡◌, ℕ, IfOk, map};
ghost use Rattle.history_core.specs.declared.band.Band.{Band};
ghost use Rattle.board_tasks.specs.LogOrders.{LogsInOrder};

use board_live::{Posted, RecordLaw};
use board_tasks::{Entry, Gate, Origin, check_origin, finish_lanes};
use board_teams::{point, run_plans};
use cell_contract::{Family, SharedFamily};
use history_core::Band;
use std::alloc::{AllocError, Global};
use std::sync::atomic::{AtomicBool, AtomicUsize, Ordering};
use std::thread::{Threads, yield_now};

/// How often a task looks for the others. It lets them run in between, so that tasks also meet
/// where all processors are busy.
const TURNS: u64 = 5_000_000;

/// Each task is counted before its first call, and goes on where all are there. Where one has
/// looked in vain no other waits.
#[derive(Drop)]
struct Meeting {
    tasks: usize,
    came: AtomicUsize,
    missed: AtomicBool,
}

impl Meeting {
    fn is_whole(&self) -> bool {
        self.came.load(Ordering::SeqCst) == self.tasks
    }
}

impl Gate for Meeting {
    type Permit = ();

    ghost is_for = { λ _ _ _ _. Unit {0} };

    ghost may_stop = { λ _ _ call. call ≡ 1 };

    fn before(&self, _task: usize, call: usize) -> Option<()> {
        if call != 1 {
            return Some(());
        }
        self.came.fetch_add(1, Ordering::SeqCst);
        for _ in 0..TURNS {
            if self.is_whole() {
                return Some(());
            }
            if self.missed.load(Ordering::SeqCst) {
                return None;
            }
            yield_now();
        }
        self.missed.store(true, Ordering::SeqCst);
        None
    }

    fn after<V: RecordLaw, F: Family<Posted<V>>>(
        &self,
        _task: usize,
        _call: usize,
        _entry: &Entry<V>,
        _permit: (),
    ) {}
}

const PLAN: &[u64] = &[1, 0];

/// Runs so many tasks, 16 at most, and ends their board: the logs tell of one register, called in one order.
fn meet<R: Threads + Sync, F: SharedFamily<Posted<Band>>>(
    rt: &R,
    alloc: Global,
    tasks: usize,
) -> Result<(Vec<Vec<Entry<Band>>>, Posted<Band>), AllocError>
where
    F::Seat: Send,
    F::Receipt: Send,
    ensures ordered { IfOk result (λ r. (opening : Band) × (limit : ℕ)
        × LogsInOrder opening limit (map (λ v. v.items) r.0.items) r.1) }
{
    let gate = Meeting {
        tasks,
        came: AtomicUsize::new(0),
        missed: AtomicBool::new(false),
    };
    let mut plans = Vec::with_capacity(alloc, 16)?;
    for _ in 0..tasks.min(16) {
        plans.push(PLAN)?;
    }
    let crew = run_plans::<R, F, Meeting>(rt, alloc, 9, plans.as_slice(), &gate)?;
    let ended = finish_lanes(alloc, crew.board, crew.lanes)?;
    Ok(ended)
}

/// Whether so many tasks made both their calls, a write and a read, each record in their logs has its origin, and the
/// last record is one of the greatest that a task handed on.
fn met<R: Threads + Sync, F: SharedFamily<Posted<Band>>>(
    rt: &R,
    alloc: Global,
    tasks: usize,
) -> Result<bool, AllocError>
where
    F::Seat: Send,
    F::Receipt: Send,
{
    let (logs, last) = meet::<R, F>(rt, alloc, tasks)?;
    let mut whole = logs.len() == tasks;
    let mut greatest = 0;
    for log in logs.as_slice() {
        whole = whole & (log.len() == 2);
        if let Some(entry) = log.last() {
            greatest = greatest.max(entry.reply.stamp().tag);
        }
    }
    let sound = check_origin(point(0), logs.as_slice()) == Origin::Sound;
    Ok(whole & sound & (last.stamp.tag == greatest))
}

/// Whether all tasks meet, of 2 to 16.
pub fn all_met<R: Threads + Sync, F: SharedFamily<Posted<Band>>>(
    rt: &R,
    alloc: Global,
) -> Result<bool, AllocError>
where
    F::Seat: Send,
    F::Receipt: Send,
{
    for tasks in 2..=16 {
        if !met::<R, F>(rt, alloc, tasks)? {
            return Ok(false);
        }
    }
    Ok(true)
}
