ghost use Rattle.std.specs.Prelude.{◌≡◌, ◌<◌, Bool, true, false, not};
ghost use Rattle.four_slot_core.specs.declared.state.State.{State};
ghost use Rattle.four_slot_core.specs.Events.{bits_of, bit_number, in_slot_of, IsReadEvent, IsWriteEvent};
ghost use Rattle.four_slot_core.specs.Events.{opening_state, reader_state};
ghost use Rattle.four_slot_core.specs.Events.{same_slot, side, slot_number, with_side};

use crate::state::{Bits, InSlot, ReadStage, ReaderStage, Sides, Slot, Stage, State};
use std::marker::Model;

impl<T: Copy> Sides<T> {
    fn at(&self, bit: bool) -> T
        ensures { result ≡ side self.now bit }
    {
        if bit { self.one } else { self.zero }
    }

    fn put(&mut self, bit: bool, value: T)
        ensures { self.new ≡ with_side self.old bit value }
    {
        if bit {
            self.one = value;
        } else {
            self.zero = value;
        }
    }
}

fn is_same(a: Slot, b: Slot) -> bool
    ensures { result ≡ same_slot a b }
{
    a.pair == b.pair && a.index == b.index
}

impl Slot {
    fn number(&self) -> u8
        ensures { result ≡ slot_number self.now }
    {
        2 * (self.pair as u8) + self.index as u8
    }

    /// The slot with this number.
    pub(crate) fn numbered(number: u8) -> Self
        requires { number < 4 }
        ensures { slot_number result ≡ number }
    {
        Slot {
            pair: number >= 2,
            index: number == 1 || number == 3,
        }
    }
}

/// A cell of one writer and one reader, which makes one event at a time.
#[derive(Drop)]
pub struct CellCore<R> {
    state: State<R>,
}

impl<R> Model for CellCore<R> {
    ghost Value = { State R };

    ghost view = { λ c. c.state };
}

impl<R: Copy> CellCore<R> {
    /// A cell that holds `opening`. A read whose slot access meets a write of the same slot answers `noise`.
    pub fn new(opening: R, noise: R) -> Self
        ensures { result ≡ opening_state opening noise }
    {
        let bits = Sides {
            zero: false,
            one: false,
        };
        let pair = Sides {
            zero: opening,
            one: opening,
        };
        let first = Slot {
            pair: false,
            index: false,
        };
        CellCore {
            state: State {
                noise,
                latest: false,
                reading: false,
                slot: bits,
                records: Sides {
                    zero: pair,
                    one: pair,
                },
                writer: Stage::W5,
                write: first,
                item: opening,
                remembered: bits,
                reader: ReaderStage::R5,
                read: first,
                chosen: None,
                met: false,
            },
        }
    }

    /// A new cell whose reader stands just after R3 with this slot.
    pub(crate) fn with_reader(opening: R, noise: R, slot: Slot) -> Self
        ensures { result ≡ reader_state opening noise slot }
    {
        let mut cell = CellCore::new(opening, noise);
        cell.state.reader = ReaderStage::R3;
        cell.state.read = slot;
        cell.state.chosen = Some(slot);
        cell
    }

    /// Makes the writer's next event and tells which it was. The item of a write is taken at W1; at the
    /// other events it has no effect.
    pub fn write_step(&mut self, item: R) -> Stage
        ensures { IsWriteEvent item self.old result self.new }
    {
        let s = &mut self.state;
        match s.writer {
            Stage::W5 => {
                let pair = !s.reading;
                let index = !s.remembered.at(pair);
                s.write = Slot { pair, index };
                s.item = item;
                s.writer = Stage::W1;
                Stage::W1
            }
            Stage::W1 => {
                s.met = s.met || (s.reader == ReaderStage::R4 && is_same(s.write, s.read));
                s.writer = Stage::W2;
                Stage::W2
            }
            Stage::W2 => {
                let mut pair = s.records.at(s.write.pair);
                pair.put(s.write.index, s.item);
                s.records.put(s.write.pair, pair);
                s.writer = Stage::W3;
                Stage::W3
            }
            Stage::W3 => {
                s.slot.put(s.write.pair, s.write.index);
                s.remembered.put(s.write.pair, s.write.index);
                s.writer = Stage::W4;
                Stage::W4
            }
            Stage::W4 => {
                s.latest = s.write.pair;
                s.writer = Stage::W5;
                Stage::W5
            }
        }
    }

    /// Makes the reader's next event and tells which it was.
    pub fn read_step(&mut self) -> ReadStage<R>
        ensures { IsReadEvent self.old result self.new }
    {
        let s = &mut self.state;
        match s.reader {
            ReaderStage::R5 => {
                s.read.pair = s.latest;
                s.reader = ReaderStage::R1;
                ReadStage::R1
            }
            ReaderStage::R1 => {
                s.reading = s.read.pair;
                s.reader = ReaderStage::R2;
                ReadStage::R2
            }
            ReaderStage::R2 => {
                s.read.index = s.slot.at(s.read.pair);
                s.chosen = Some(s.read);
                s.reader = ReaderStage::R3;
                ReadStage::R3
            }
            ReaderStage::R3 => {
                s.met = s.writer == Stage::W2 && is_same(s.write, s.read);
                s.reader = ReaderStage::R4;
                ReadStage::R4
            }
            ReaderStage::R4 => {
                s.reader = ReaderStage::R5;
                let record = s.records.at(s.read.pair).at(s.read.index);
                ReadStage::R5(if s.met { s.noise } else { record })
            }
        }
    }

    /// The number of the slot that the last W1 chose, 0 before the first.
    pub fn write_slot(&self) -> u8
        ensures { result ≡ slot_number self.now.write }
    {
        self.state.write.number()
    }

    /// The number of the slot of the reader's pair and index; from R3 to R5 it is the slot that R3 chose.
    pub fn read_slot(&self) -> u8
        ensures { result ≡ slot_number self.now.read }
    {
        self.state.read.number()
    }

    pub fn bits(&self) -> Bits
        ensures { result ≡ bits_of self.now }
    {
        Bits {
            latest: self.state.latest,
            reading: self.state.reading,
            slot: [self.state.slot.zero, self.state.slot.one],
        }
    }

    pub fn in_slot(&self) -> InSlot
        ensures { result ≡ in_slot_of self.now }
    {
        let s = &self.state;
        InSlot {
            writer: if s.writer == Stage::W2 {
                Some(s.write.number())
            } else {
                None
            },
            reader: if s.reader == ReaderStage::R4 {
                Some(s.read.number())
            } else {
                None
            },
        }
    }
}
