//! Tasks over a board that is ended.
use board_live::Posted;
use board_tasks::{Entry, OpenGate, Origin, Reply, check_origin, finish_lanes};
use board_teams::{point, run_plans};
use cell_contract::SharedFamily;
use history_core::Band;
use matrix_core::Stamp;
use std::alloc::{AllocError, Global};
use std::thread::Threads;

const ROUNDS: usize = 10_000;

const LIMIT: u64 = 50;

/// Whether the log is whole, its stamps never fall, those of its writes rise, and none has a tag above the limit.
fn is_worn(log: &[Entry<Band>]) -> bool {
    let mut last = Stamp { tag: 0, writer: 0 };
    let mut lawful = log.len() == 2 * ROUNDS;
    for entry in log {
        let stamp = entry.reply.stamp();
        let rises = match entry.reply {
            Reply::Written(_) => last < stamp,
            _ => last <= stamp,
        };
        lawful = lawful & rises & (stamp.tag <= LIMIT);
        last = stamp;
    }
    lawful
}

/// A write and a read, again and again.
fn plan(alloc: Global) -> Result<Vec<u64>, AllocError> {
    let mut plan = Vec::with_capacity(alloc, 2 * ROUNDS)?;
    for _ in 0..ROUNDS {
        plan.push(7)?;
        plan.push(0)?;
    }
    Ok(plan)
}

/// Runs three tasks, which write and read in turn, until long after the tags have ended: the greatest tag of the last
/// entries is the limit, and so is that of the last record.
pub fn wears_out<R: Threads + Sync, F: SharedFamily<Posted<Band>>>(
    rt: &R,
    alloc: Global,
) -> Result<bool, AllocError>
where
    F::Seat: Send,
    F::Receipt: Send,
{
    let plan = plan(alloc)?;
    let plans: &[&[u64]] = &[plan.as_slice(), plan.as_slice(), plan.as_slice()];
    let crew = run_plans::<R, F, OpenGate>(rt, alloc, LIMIT, plans, &OpenGate)?;
    let (logs, last) = finish_lanes(alloc, crew.board, crew.lanes)?;
    let mut greatest = 0;
    let mut lawful = logs.len() == 3;
    lawful = lawful & (check_origin(point(0), logs.as_slice()) == Origin::Sound);
    for log in logs.as_slice() {
        lawful = lawful & is_worn(log.as_slice());
        if let Some(entry) = log.last() {
            greatest = greatest.max(entry.reply.stamp().tag);
        }
    }
    Ok(lawful & (greatest == LIMIT) & (last.stamp.tag == LIMIT))
}

/// What two tasks left behind: how long their logs are, whether each record in them has its
/// origin, and the last record.
type Left = ([usize; 2], Origin, Posted<Band>);

fn left_by_two<R: Threads + Sync, F: SharedFamily<Posted<Band>>>(
    rt: &R,
    alloc: Global,
    limit: u64,
    plans: &[&[u64]],
) -> Result<Left, AllocError>
where
    F::Seat: Send,
    F::Receipt: Send,
{
    let crew = run_plans::<R, F, OpenGate>(rt, alloc, limit, plans, &OpenGate)?;
    let (logs, last) = finish_lanes(alloc, crew.board, crew.lanes)?;
    let origin = check_origin(point(0), logs.as_slice());
    let lengths = match logs.as_slice() {
        [first, second] => [first.len(), second.len()],
        _ => [0, 0],
    };
    Ok((lengths, origin, last))
}

const OF_THREE: &[&[u64]] = &[&[1, 0, 2], &[3, 0]];

/// The last record is the second write of one task or the only one of the other, above another write.
pub fn two_write_and_read<R: Threads + Sync, F: SharedFamily<Posted<Band>>>(
    rt: &R,
    alloc: Global,
) -> Result<bool, AllocError>
where
    F::Seat: Send,
    F::Receipt: Send,
{
    let (lengths, origin, last) = left_by_two::<R, F>(rt, alloc, 9, OF_THREE)?;
    Ok(
        lengths == [3, 2]
            && origin == Origin::Sound
            && last.stamp.tag >= 2
            && (last.item.now == 2 || last.item.now == 3),
    )
}

const TO_LIMIT: &[&[u64]] = &[&[1, 2], &[0, 0]];

/// One task writes up to the limit and beyond, the other reads.
pub fn two_meet_the_limit<R: Threads + Sync, F: SharedFamily<Posted<Band>>>(
    rt: &R,
    alloc: Global,
) -> Result<bool, AllocError>
where
    F::Seat: Send,
    F::Receipt: Send,
{
    let (lengths, origin, last) = left_by_two::<R, F>(rt, alloc, 1, TO_LIMIT)?;
    Ok(lengths == [2, 2] && origin == Origin::Sound && (last.stamp.tag, last.item.now) == (1, 1))
}
