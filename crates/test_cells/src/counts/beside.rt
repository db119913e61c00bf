//! One script through the register, five events for each call, and through the running cell.
use super::Count;
use cell_contract::Calls;
use cell_four_slot::FourSlotCell;
use four_slot_core::{Bits, CellCore, ReadStage};
use std::alloc::{AllocError, Global};
use std::test::Fail;

/// What a call shows: the slot of its access, the bits after it, and a read's answer.
#[derive(Clone, Copy, PartialEq, Eq)]
struct Row {
    slot: Option<u8>,
    bits: Bits,
    answer: Option<u64>,
}

fn write(core: &mut CellCore<u64>, item: u64) -> Row {
    core.write_step(item);
    core.write_step(item);
    let slot = core.in_slot().writer;
    core.write_step(item);
    core.write_step(item);
    core.write_step(item);
    Row {
        slot,
        bits: core.bits(),
        answer: None,
    }
}

fn read(core: &mut CellCore<u64>) -> Row {
    core.read_step();
    core.read_step();
    core.read_step();
    core.read_step();
    let slot = core.in_slot().reader;
    let answer = match core.read_step() {
        ReadStage::R5(answer) => Some(answer),
        _ => None,
    };
    Row {
        slot,
        bits: core.bits(),
        answer,
    }
}

fn through_core() -> [Row; 6] {
    let mut core = CellCore::new(0, 9);
    [
        write(&mut core, 1),
        write(&mut core, 2),
        read(&mut core),
        write(&mut core, 3),
        read(&mut core),
        read(&mut core),
    ]
}

fn through_cell(alloc: Global) -> Result<[Option<u64>; 6], AllocError> {
    let (cell, mut put, mut get) = FourSlotCell::<Count>::make(alloc, Count(0))?;
    cell.write(&mut put, Count(1));
    cell.write(&mut put, Count(2));
    let first = cell.read(&mut get).0;
    cell.write(&mut put, Count(3));
    let second = cell.read(&mut get).0;
    let third = cell.read(&mut get).0;
    cell.finish(put, get);
    Ok([None, None, Some(first), None, Some(second), Some(third)])
}

/// What a call shows, in a constant.
macro_rules! made {
    ($slot:expr, $latest:expr, $reading:expr, $bits:expr, $answer:expr) => {
        Row {
            slot: Some($slot),
            bits: Bits {
                latest: $latest,
                reading: $reading,
                slot: $bits,
            },
            answer: $answer,
        }
    };
}

const ROWS: [Row; 6] = [
    made!(3, true, false, [false, true], None),
    made!(2, true, false, [false, false], None),
    made!(2, true, true, [false, false], Some(2)),
    made!(1, false, true, [true, false], None),
    made!(1, false, false, [true, false], Some(3)),
    made!(1, false, false, [true, false], Some(3)),
];

const ANSWERS: [Option<u64>; 6] = [None, None, Some(2), None, Some(3), Some(3)];

#[test]
fn core_beside_cell(rt: HostRuntime) -> Result<(), Fail> {
    assert!(rt; through_core() == ROWS);
    assert!(rt; through_cell(rt.alloc())? == ANSWERS);
    Ok(())
}
