//! A schedule of a hundred thousand steps, ten thousand writes and as many reads, in which writer and reader take turns
//! step by step. Followed by hand, each read begins one step after its write and gets the write before, and the slots
//! come round after four writes.

use super::has;
use four_slot_core::{CellSchedule, Turn};
use four_slot_play::play_cell;
use history_core::{Items, Kind, Op};
use std::alloc::{AllocError, Global};
use std::test::Fail;

const ROUNDS: u64 = 10_000;

const WRITE_SLOTS: [u8; 4] = [3, 2, 1, 0];

const READ_SLOTS: [u8; 4] = [0, 3, 2, 1];

fn schedule(alloc: Global) -> Result<CellSchedule<u64>, AllocError> {
    let mut steps = Vec::new(alloc);
    let mut writes = Vec::new(alloc);
    for round in 0..ROUNDS {
        writes.push(round + 1)?;
        for _ in 0..5 {
            steps.push(Turn::Writer)?;
            steps.push(Turn::Reader)?;
        }
    }
    Ok(CellSchedule {
        opening: 0,
        noise: 987,
        steps: Items::new(steps),
        writes: Items::new(writes),
        reads: ROUNDS,
    })
}

fn operations(alloc: Global) -> Result<Vec<Op<u64>>, AllocError> {
    let mut ops = Vec::new(alloc);
    for round in 0..ROUNDS {
        ops.push(Op {
            who: 0,
            kind: Kind::Write,
            starts: 10 * round,
            ends: Some(10 * round + 8),
            item: Some(round + 1),
        })?;
        ops.push(Op {
            who: 1,
            kind: Kind::Read,
            starts: 10 * round + 1,
            ends: Some(10 * round + 9),
            item: Some(round),
        })?;
    }
    Ok(ops)
}

/// The slots of the operations, and their order: the read of a round before its write.
fn slots_and_order(alloc: Global) -> Result<(Vec<Option<u8>>, Vec<usize>), AllocError> {
    let mut slots = Vec::new(alloc);
    let mut order = Vec::new(alloc);
    for round in 0..ROUNDS as usize {
        slots.push(Some(WRITE_SLOTS[round % 4]))?;
        slots.push(Some(READ_SLOTS[round % 4]))?;
        order.push(2 * round + 1)?;
        order.push(2 * round)?;
    }
    Ok((slots, order))
}

/// Whether the schedule has a hundred thousand steps, and its report these operations with their slots and their order.
fn gives(
    alloc: Global,
    schedule: &CellSchedule<u64>,
    ops: &[Op<u64>],
    slots: &[Option<u8>],
    order: &[usize],
) -> bool {
    match play_cell(alloc, schedule) {
        Ok(report) => {
            schedule.steps.as_slice().len() == 100_000 && has(&report, ops, slots, order)
        }
        Err(_) => false,
    }
}

/// Whether the schedule gives what was followed by hand.
fn is_as_followed(alloc: Global) -> Result<bool, AllocError> {
    let schedule = schedule(alloc)?;
    let ops = operations(alloc)?;
    let (slots, order) = slots_and_order(alloc)?;
    Ok(gives(alloc, &schedule, &ops, &slots, &order))
}

#[test]
fn a_hundred_thousand_steps(rt: HostRuntime) -> Result<(), Fail> {
    assert!(rt; is_as_followed(rt.alloc())?);
    Ok(())
}
