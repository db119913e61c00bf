//! Schedules stepped by hand. The expected bits, slots and answers are those of the worked traces.

use four_slot_core::laws::{self, reader_at};
use four_slot_core::{Bits, CellCore, CellReport, InSlot, ReadStage, Stage};
use history_core::{Band, Op};

mod limits;
mod worked;

/// The steps of a text of the letters `w` and `r`, each write with this item, and what the cell shows after them: the
/// last answer of these steps; `latest`, `reading` and the two bits of `slot`; the writer's slot and the reader's.
#[derive(Clone, Copy)]
struct Shown {
    item: u64,
    steps: &'static str,
    answer: Option<u64>,
    bits: [u8; 4],
    in_slot: (Option<u8>, Option<u8>),
}

/// A row with no answer.
macro_rules! shows {
    ($item:expr, $steps:expr, $bits:expr, $in_slot:expr) => {
        Shown {
            item: $item,
            steps: $steps,
            answer: None,
            bits: $bits,
            in_slot: $in_slot,
        }
    };
}

/// A row of reads alone, after which neither side is in a slot.
macro_rules! gives {
    ($steps:expr, $answer:expr, $bits:expr) => {
        Shown {
            item: 0,
            steps: $steps,
            answer: Some($answer),
            bits: $bits,
            in_slot: (None, None),
        }
    };
}

fn make(cell: &mut CellCore<u64>, item: u64, steps: &str) -> Option<u64> {
    let mut answer = None;
    for step in steps.bytes() {
        if step == b'w' {
            cell.write_step(item);
        } else if let ReadStage::R5(record) = cell.read_step() {
            answer = Some(record);
        }
    }
    answer
}

fn bits_of(cell: &CellCore<u64>) -> [u8; 4] {
    let bits = cell.bits();
    let [zero, one] = bits.slot;
    [bits.latest as u8, bits.reading as u8, zero as u8, one as u8]
}

/// Whether the cell tells this slot, where a side is in one.
fn is_slot(side: Option<u8>, told: u8) -> bool {
    match side {
        Some(slot) => slot == told,
        None => true,
    }
}

/// Whether the sides are in these slots, and the cell tells each of them.
fn is_in(cell: &CellCore<u64>, (writer, reader): (Option<u8>, Option<u8>)) -> bool {
    cell.in_slot() == InSlot { writer, reader }
        && is_slot(writer, cell.write_slot())
        && is_slot(reader, cell.read_slot())
}

/// Makes the steps, and tells whether the cell shows what stands in the row.
fn is_shown(cell: &mut CellCore<u64>, sight: &Shown) -> bool {
    let answer = make(cell, sight.item, sight.steps);
    answer == sight.answer && bits_of(cell) == sight.bits && is_in(cell, sight.in_slot)
}

/// Whether each row is shown, one after the other.
fn follows(cell: &mut CellCore<u64>, sights: &[Shown]) -> bool {
    let mut same = true;
    for sight in sights {
        same = is_shown(cell, sight) && same;
    }
    same
}

const NONE: (Option<u8>, Option<u8>) = (None, None);

const READ_AFTER_A_WRITE: &[Shown] = &[
    shows!(1, "w", [0, 0, 0, 0], NONE),
    shows!(1, "w", [0, 0, 0, 0], (Some(3), None)),
    shows!(1, "w", [0, 0, 0, 0], NONE),
    shows!(1, "w", [0, 0, 0, 1], NONE),
    shows!(1, "w", [1, 0, 0, 1], NONE),
    shows!(0, "r", [1, 0, 0, 1], NONE),
    shows!(0, "r", [1, 1, 0, 1], NONE),
    shows!(0, "r", [1, 1, 0, 1], NONE),
    shows!(0, "r", [1, 1, 0, 1], (None, Some(3))),
    gives!("r", 1, [1, 1, 0, 1]),
];

const READ_BEGUN_BEFORE_THE_WRITE: &[Shown] = &[
    shows!(0, "r", [0, 0, 0, 0], NONE),
    shows!(1, "ww", [0, 0, 0, 0], (Some(3), None)),
    shows!(1, "ww", [0, 0, 0, 1], NONE),
    shows!(1, "w", [1, 0, 0, 1], NONE),
    shows!(0, "rr", [1, 0, 0, 1], NONE),
    shows!(0, "r", [1, 0, 0, 1], (None, Some(0))),
    gives!("r", 0, [1, 0, 0, 1]),
];

const READ_OF_AN_UNFINISHED_WRITE: &[Shown] = &[
    shows!(1, "wwwww", [1, 0, 0, 1], NONE),
    shows!(2, "ww", [1, 0, 0, 1], (Some(2), None)),
    shows!(2, "ww", [1, 0, 0, 0], NONE),
    shows!(0, "rr", [1, 1, 0, 0], NONE),
    shows!(0, "rr", [1, 1, 0, 0], (None, Some(2))),
    gives!("r", 2, [1, 1, 0, 0]),
];

const TWO_SLOTS_OF_ONE_PAIR: &[Shown] = &[
    shows!(1, "wwwww", [1, 0, 0, 1], NONE),
    shows!(2, "ww", [1, 0, 0, 1], (Some(2), None)),
    shows!(0, "rrr", [1, 1, 0, 1], (Some(2), None)),
    shows!(0, "r", [1, 1, 0, 1], (Some(2), Some(3))),
    shows!(2, "w", [1, 1, 0, 1], (None, Some(3))),
    gives!("r", 1, [1, 1, 0, 1]),
    shows!(2, "w", [1, 1, 0, 0], NONE),
    shows!(2, "w", [1, 1, 0, 0], NONE),
];

const STALLED_READER: &[Shown] = &[
    shows!(1, "wwwww", [1, 0, 0, 1], NONE),
    shows!(0, "rrrr", [1, 1, 0, 1], (None, Some(3))),
    shows!(2, "ww", [1, 1, 0, 1], (Some(1), Some(3))),
    shows!(2, "www", [0, 1, 1, 1], (None, Some(3))),
    shows!(3, "ww", [0, 1, 1, 1], (Some(0), Some(3))),
    shows!(3, "www", [0, 1, 0, 1], (None, Some(3))),
    gives!("r", 1, [0, 1, 0, 1]),
    shows!(0, "rrrr", [0, 0, 0, 1], (None, Some(0))),
    gives!("r", 3, [0, 0, 0, 1]),
];

const READ_BETWEEN_THE_STORES_OF_A_WRITE: &[Shown] = &[
    shows!(1, "wwwww", [1, 0, 0, 1], NONE),
    gives!("rrrrr", 1, [1, 1, 0, 1]),
    shows!(2, "ww", [1, 1, 0, 1], (Some(1), None)),
    shows!(2, "ww", [1, 1, 1, 1], NONE),
    shows!(0, "rrrr", [1, 1, 1, 1], (None, Some(3))),
    gives!("r", 1, [1, 1, 1, 1]),
    shows!(2, "w", [0, 1, 1, 1], NONE),
];

const WHOLE_CALLS: &[Shown] = &[
    shows!(1, "wwwww", [1, 0, 0, 1], NONE),
    shows!(2, "wwwww", [1, 0, 0, 0], NONE),
    gives!("rrrrr", 2, [1, 1, 0, 0]),
    shows!(3, "wwwww", [0, 1, 1, 0], NONE),
    gives!("rrrrr", 3, [0, 0, 1, 0]),
    gives!("rrrrr", 3, [0, 0, 1, 0]),
];

const TRACES: &[(&str, &[Shown])] = &[
    ("read after a write", READ_AFTER_A_WRITE),
    ("read begun before the write", READ_BEGUN_BEFORE_THE_WRITE),
    ("read of an unfinished write", READ_OF_AN_UNFINISHED_WRITE),
    ("two slots of one pair", TWO_SLOTS_OF_ONE_PAIR),
    ("stalled reader", STALLED_READER),
    (
        "read between the stores of a write",
        READ_BETWEEN_THE_STORES_OF_A_WRITE,
    ),
    ("whole calls", WHOLE_CALLS),
];

#[test]
fn traces(rt: HostRuntime) {
    for (name, sights) in TRACES {
        assert!(rt; follows(&mut CellCore::new(0, 987), sights), "{name}");
    }
}

/// The steps of a reader that stands just after R3 with slot 3, to which the first write
/// goes, its answer, and the events.
const MET: &[(&str, u64, &str)] = &[
    ("wwrr", 987, "W1 W2 R4 R5"),
    ("rwwwr", 987, "R4 W1 W2 W3 R5"),
    ("wwwrr", 1, "W1 W2 W3 R4 R5"),
    ("wrrw", 0, "W1 R4 R5 W2"),
];

const IN_ONE_SLOT: &[Shown] = &[shows!(1, "wwr", [0, 0, 0, 0], (Some(3), Some(3)))];

#[test]
fn noise(rt: HostRuntime) {
    for (steps, record, events) in MET {
        let answer = make(&mut reader_at(0, 987, 3), 1, steps);
        assert!(rt; answer == Some(*record), "at {events}");
    }
    assert!(rt; follows(&mut reader_at(0, 987, 3), IN_ONE_SLOT));
}

/// Whether the cell's reader is in this slot at its next step, and then gives the opening.
fn reads_opening(cell: &mut CellCore<u64>, slot: u8) -> bool {
    let sights = [
        shows!(0, "r", [0, 0, 0, 0], (None, Some(slot))),
        gives!("r", 0, [0, 0, 0, 0]),
    ];
    follows(cell, &sights)
}

#[test]
fn reader_at_each_slot(rt: HostRuntime) {
    for slot in 0..4 {
        assert!(rt;
            reads_opening(&mut reader_at(0, 987, slot), slot),
            "slot {slot}"
        );
    }
}

/// Whether the report has these operations with these slots, and this order of them.
fn has(report: &CellReport<u64>, ops: &[Op<u64>], slots: &[Option<u8>], order: &[usize]) -> bool {
    report.history.ops.as_slice() == ops
        && report.slots.as_slice() == slots
        && report.order.as_slice() == order
}

macro_rules! band {
    ($lo:expr, $now:expr, $hi:expr) => {
        Band {
            lo: $lo,
            now: $now,
            hi: $hi,
        }
    };
}

/// The events of a write. Its first step is made with the item, and the others with another one.
fn events_of_write(cell: &mut CellCore<Band>, item: Band, other: Band) -> [Stage; 5] {
    [
        cell.write_step(item),
        cell.write_step(other),
        cell.write_step(other),
        cell.write_step(other),
        cell.write_step(other),
    ]
}

fn events_of_read(cell: &mut CellCore<Band>) -> [ReadStage<Band>; 5] {
    [
        cell.read_step(),
        cell.read_step(),
        cell.read_step(),
        cell.read_step(),
        cell.read_step(),
    ]
}

const ORIGIN: Band = band!(0, 0, 0);

const NOISE: Band = band!(9, 8, 7);

const A: Band = band!(1, 1, 1);

const WRITTEN: [Stage; 5] = [Stage::W1, Stage::W2, Stage::W3, Stage::W4, Stage::W5];

const READ: [ReadStage<Band>; 5] = [
    ReadStage::R1,
    ReadStage::R2,
    ReadStage::R3,
    ReadStage::R4,
    ReadStage::R5(A),
];

const BITS: Bits = Bits {
    latest: true,
    reading: true,
    slot: [false, true],
};

/// The events by their names, at bands; the item of a write is that of its first event.
#[test]
fn events_of_bands(rt: HostRuntime) {
    let mut cell = CellCore::new(ORIGIN, NOISE);
    assert!(rt; events_of_write(&mut cell, A, ORIGIN) == WRITTEN);
    assert!(rt; events_of_read(&mut cell) == READ && cell.bits() == BITS);
}

const MET_IN_SLOT: InSlot = InSlot {
    writer: Some(3),
    reader: Some(3),
};

/// A read of a band that meets a write gives the noise.
#[test]
fn noise_of_bands(rt: HostRuntime) {
    let mut met = reader_at(ORIGIN, NOISE, 3);
    met.read_step();
    met.write_step(A);
    met.write_step(A);
    assert!(rt; met.in_slot() == MET_IN_SLOT && met.read_step() == ReadStage::R5(NOISE));
}

/// Laws have no effect; here they are called at a type.
#[test]
fn laws_of_numbers() {
    laws::slots_are_safe::<u64>();
    laws::events_keep_soundness::<u64>();
    laws::sound_slots_are_clear::<u64>();
    laws::events_keep_freshness::<u64>();
    laws::interleavings_grow::<u64>();
    laws::interleavings_are_clear_and_fresh::<u64>();
    laws::interleavings_are_counted::<u64>();
    laws::interleavings_go_on::<u64>();
    laws::agreeing_accesses_are_alike();
    laws::positions_rise::<u64>();
}
