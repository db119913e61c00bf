//! The slot accesses of a cell's schedule.

ghost use Rattle.std.specs.Prelude.{◌≡◌, ◌+◌, ◌++◌, [], IfOk, OnOk, map, nat_eq, if◌then◌else◌};
ghost use Rattle.four_slot_core.specs.Play.{actor};
ghost use Rattle.history_core.specs.Schedules.{positions};
ghost use Rattle.print_report.specs.Lines.{entry_at};
ghost use Rattle.picture_shapes.specs.Visits.{access_visits, cell_visits, events_in, side_visits};

use crate::access::{Access, Steps, made_after, push_access, push_if};
use crate::visit::Visit;
use four_slot_core::{CellSchedule, Turn};
use history_core::{Band, Items, Op};
use std::alloc::{AllocError, Global};

/// The slot accesses of a cell's schedule whose operations have these slots: those of the
/// writer before those of the reader.
pub fn cell_visits(
    alloc: Global,
    schedule: &CellSchedule<Band>,
    ops: &[Op<Band>],
    slots: &[Option<u8>],
) -> Result<Vec<Visit>, AllocError>
    ensures { IfOk result (λ v. v.items ≡ cell_visits schedule.now ops.now slots.now) }
{
    let steps = schedule.steps.as_slice();
    let mut visits = Vec::new(alloc);
    let writer = side_steps(alloc, Turn::Writer, steps)?;
    push_side(&mut visits, &writer, 0, Turn::Writer, slots, ops)?;
    let reader = side_steps(alloc, Turn::Reader, steps)?;
    push_side(&mut visits, &reader, 1, Turn::Reader, slots, ops)?;
    Ok(visits)
}

/// The steps of the writer or the reader of a cell.
fn side_steps(alloc: Global, side: Turn, steps: &[Turn]) -> Result<Steps, AllocError>
    ensures positions { IfOk result (λ s. s.positions ≡ positions 0 (actor side) (map actor steps.now)) }
    ensures events { IfOk result (λ s. s.events ≡ 5) }
{
    let mut made = Vec::new(alloc);
    for i in 0..steps.len() {
        push_if(&mut made, is_by(steps[i], side), i as u64)?;
    }
    Ok(Steps {
        positions: Items::new(made),
        events: 5,
    })
}

fn is_by(turn: Turn, side: Turn) -> bool
    ensures { result ≡ nat_eq (actor turn) (actor side) }
{
    turn == side
}

fn push_side(
    visits: &mut Vec<Visit>,
    steps: &Steps,
    who: usize,
    turn: Turn,
    slots: &[Option<u8>],
    ops: &[Op<Band>],
) -> Result<(), AllocError>
    ensures { OnOk result (visits.new.items ≡ visits.old.items
        ++ side_visits (events_in steps.now.positions steps.now.events) who turn slots.now 0 0 ops.now) }
{
    let mut k = 0;
    for place in 0..ops.len() {
        let op = &ops[place];
        let access = Access {
            operation: k,
            number: 0,
            lane: 2,
            turn,
        };
        push_own_access(visits, steps, op.who == who, access, slot_at(slots, place))?;
        k = made_after(who, k, op);
    }
    Ok(())
}

fn slot_at(slots: &[Option<u8>], place: usize) -> Option<u8>
    ensures { result ≡ entry_at slots.now place }
{
    *slots.get(place)?
}

fn push_own_access(
    visits: &mut Vec<Visit>,
    steps: &Steps,
    own: bool,
    access: Access,
    slot: Option<u8>,
) -> Result<(), AllocError>
    ensures { OnOk result
        (visits.new.items ≡ visits.old.items
        ++ (if own then access_visits (events_in steps.now.positions steps.now.events)
        access.operation access.number access.lane access.turn slot else [])) }
{
    if own {
        push_access(visits, steps, access, slot)?;
    }
    Ok(())
}
