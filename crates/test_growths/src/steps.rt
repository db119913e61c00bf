//! A four-slot cell, stepped.
use four_slot_core::{CellCore, ReadStage, ReaderStage, Stage};
use std::io;

/// A cell with the last event of each side.
#[derive(Drop)]
struct Stepped {
    core: CellCore<u8>,
    writer: Stage,
    reader: ReaderStage,
}

impl Stepped {
    fn new() -> Stepped {
        Stepped {
            core: CellCore::new(0, 0),
            writer: Stage::W5,
            reader: ReaderStage::R5,
        }
    }

    fn write(&mut self) {
        self.writer = self.core.write_step(0);
    }

    fn read(&mut self) {
        self.reader = match self.core.read_step() {
            ReadStage::R1 => ReaderStage::R1,
            ReadStage::R2 => ReaderStage::R2,
            ReadStage::R3 => ReaderStage::R3,
            ReadStage::R4 => ReaderStage::R4,
            ReadStage::R5(_) => ReaderStage::R5,
        };
    }

    /// Prints the four bits, the last event and the slot of the writer and those of the reader,
    /// and the slots that they are in.
    fn show(&self, rt: &impl Print) -> io::Result<()> {
        let bits = self.core.bits();
        let [zero, one] = bits.slot;
        let (latest, reading) = (bits.latest as u8, bits.reading as u8);
        print!(rt; "{latest} {reading} {} {} ", zero as u8, one as u8)?;
        print!(rt; "{:?} {} ", self.writer, self.core.write_slot())?;
        print!(rt; "{:?} {} ", self.reader, self.core.read_slot())?;
        let in_slot = self.core.in_slot();
        println!(rt; "{:?} {:?}", in_slot.writer, in_slot.reader)
    }
}

/// Steps a new cell by each schedule, which has a letter `w` or `r` for each step and ends with a
/// dot, and prints a line of each.
pub fn step(rt: &impl Print, schedules: &str) -> io::Result<()> {
    let mut cell = Stepped::new();
    for letter in schedules.as_bytes() {
        match letter {
            b'w' => cell.write(),
            b'r' => cell.read(),
            _ => {
                cell.show(rt)?;
                cell = Stepped::new();
            }
        }
    }
    Ok(())
}
