//! A record that was written outside any lane: the logs have no write of it.
use super::{B, OPENING};
use board_live::Posted;
use board_tasks::{Entry, Lane, OpenGate, Origin, Reply, check_origin, make_lanes, run_tasks};
use board_teams::{Step, Team, scripts};
use cell_contract::{Family, SharedFamily};
use history_core::Band;
use matrix_core::Stamp;
use std::alloc::{AllocError, Global};
use std::thread::Threads;

/// Whether the log has one call, which saw the record that was written outside.
fn is_answer(log: &[Entry<Band>]) -> bool {
    let written = Posted {
        stamp: Stamp { tag: 1, writer: 1 },
        item: B,
    };
    match log {
        [entry] => entry.reply == Reply::Seen(written),
        _ => false,
    }
}

fn have_answer<F: Family<Posted<Band>>>(lanes: &[Lane<Band, F>]) -> bool {
    match lanes {
        [first, second] => is_answer(first.log()) && second.log().is_empty(),
        _ => false,
    }
}

const READ: &[&[u64]] = &[&[0], &[]];

/// Process 1 writes and tells process 0, which learns it. Then process 0 reads in a lane, and process 1 has one with no
/// call: lane 0 was answered with that record, and the check says so of its first call.
pub fn told_from_outside<R: Threads + Sync, F: SharedFamily<Posted<Band>>>(
    rt: &R,
    alloc: Global,
) -> Result<bool, AllocError>
where
    F::Seat: Send,
    F::Receipt: Send,
{
    let all = scripts(alloc, READ)?;
    let Ok(mut team) = Team::<F>::new(alloc, 2, 9, OPENING) else {
        return Err(AllocError);
    };
    let _ = team.answer(Step::Write(1, B));
    let _ = team.answer(Step::PassOn(1, 0));
    let Team { board, passes } = team;
    if passes.len() != 2 {
        return Err(AllocError);
    }
    let mut lanes = make_lanes(alloc, passes, all)?;
    run_tasks(rt, &board, lanes.as_mut_slice(), &OpenGate);
    let origin = check_origin(OPENING, lanes.as_slice());
    Ok(origin == Origin::Broken { task: 0, call: 1 } && have_answer(lanes.as_slice()))
}
