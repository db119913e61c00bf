//! The slot accesses of one process of a board.

ghost use Rattle.std.specs.Prelude.{◌≡◌, ◌≤◌, ◌<◌, ◌+◌, ◌++◌, [], IfOk, OnOk, get_or, length, if◌then◌else◌};
ghost use Rattle.history_core.specs.Schedules.{board_accesses, positions};
ghost use Rattle.matrix_core.specs.Runs.{max_position};
ghost use Rattle.picture_shapes.specs.Visits.{events_in, own_visits, row_visits};

use crate::access::{Access, Steps, made_after, push_access, push_if};
use crate::lanes::Process;
use crate::visit::Visit;
use history_core::{Band, Items, Op};
use std::alloc::{AllocError, Global};

/// The steps of a process of a board of so many.
pub fn process_steps(
    alloc: Global,
    at: u64,
    who: usize,
    processes: usize,
    steps: &[usize],
) -> Result<Steps, AllocError>
    requires steps { at + length steps.now < max_position }
    requires some { 1 ≤ processes }
    requires many { processes ≤ 4 }
    ensures positions { IfOk result (λ s. s.positions ≡ positions at who steps.now) }
    ensures events { IfOk result (λ s. s.events ≡ board_accesses processes) }
{
    let mut made = Vec::new(alloc);
    for i in 0..steps.len() {
        push_if(&mut made, steps[i] == who, at + i as u64)?;
    }
    Ok(Steps {
        positions: Items::new(made),
        events: 10 * (processes - 1),
    })
}

pub fn push_own(
    visits: &mut Vec<Visit>,
    steps: &Steps,
    process: Process,
    rows: &[Items<Option<u8>>],
    ops: &[Op<Band>],
) -> Result<(), AllocError>
    requires many { process.processes ≤ 4 }
    requires who { process.who < process.processes }
    requires wide { process.wide ≤ 4 }
    ensures { OnOk result (visits.new.items ≡ visits.old.items
        ++ own_visits (events_in steps.now.positions steps.now.events)
        process.wide process.processes process.who rows.now 0 0 ops.now) }
{
    let mut k = 0;
    for place in 0..ops.len() {
        let op = &ops[place];
        push_own_row(
            visits,
            steps,
            process,
            op.who == process.who,
            k,
            row_at(rows, place),
        )?;
        k = made_after(process.who, k, op);
    }
    Ok(())
}

fn row_at(rows: &[Items<Option<u8>>], place: usize) -> &[Option<u8>]
    ensures { result.now ≡ get_or rows.now place [] }
{
    match rows.get(place) {
        Some(row) => row.as_slice(),
        None => &[],
    }
}

fn push_own_row(
    visits: &mut Vec<Visit>,
    steps: &Steps,
    process: Process,
    own: bool,
    k: usize,
    row: &[Option<u8>],
) -> Result<(), AllocError>
    requires many { process.processes ≤ 4 }
    requires who { process.who < process.processes }
    requires wide { process.wide ≤ 4 }
    ensures { OnOk result (visits.new.items ≡ visits.old.items ++ (if own then row_visits (events_in steps.now.positions
        steps.now.events) k process.wide process.processes process.who 0 row.now else [])) }
{
    if own {
        push_row(visits, steps, process, k, row)?;
    }
    Ok(())
}

fn push_row(
    visits: &mut Vec<Visit>,
    steps: &Steps,
    process: Process,
    k: usize,
    row: &[Option<u8>],
) -> Result<(), AllocError>
    requires many { process.processes ≤ 4 }
    requires who { process.who < process.processes }
    requires wide { process.wide ≤ 4 }
    ensures { OnOk result (visits.new.items ≡ visits.old.items ++ row_visits (events_in steps.now.positions
        steps.now.events) k process.wide process.processes process.who 0 row.now) }
{
    for number in 0..row.len() {
        let access = Access {
            operation: k,
            number,
            lane: process.lane(number),
            turn: process.turn(number),
        };
        push_access(visits, steps, access, row[number])?;
    }
    Ok(())
}
