//! What the two sides of a four-slot cell do.
ghost use Rattle.std.specs.Prelude.{◌≡◌, ◌+◌, ◌<◌, ◌≤◌, ◌^◌, true, false, IfOk};
ghost use Rattle.c_registers.specs.FourSlotCalls.{IsMade, HasWritten, HasRead};

use super::{FourSlotReader, FourSlotWriter};
use crate::numbered::{Numbered, Numbering};
use crate::roles::{Opens, Reading, Writing};
use cell_contract::Calls;
use cell_four_slot::FourSlotCell;
use std::alloc::{AllocError, Global};
use std::sync::Arc;

impl<W: Copy> Reading<W> for FourSlotReader<W> {
    ghost has_read = { HasRead };

    #[inline]
    fn read(&mut self) -> Numbered<W> {
        self.cell.read(&mut self.get)
    }

    #[inline]
    fn look(&mut self) -> u64 {
        self.cell.read_with(&mut self.get, |record| record.number)
    }
}

impl<W: Copy> Writing<W> for FourSlotWriter<W> {
    ghost last = { λ p. p.number };

    ghost has_written = { HasWritten };

    #[inline]
    fn write(&mut self, words: &W) -> bool {
        let Some(number) = self.number.checked_add(1) else {
            return false;
        };
        self.cell
            .write_laid(&mut self.put, &Numbering { number, words });
        self.number = number;
        true
    }
}

impl<W: Copy> Opens<W, FourSlotReader<W>> for FourSlotWriter<W> {
    ghost is_made = { IsMade };

    fn open(
        alloc: Global,
        words: &W,
    ) -> Result<(FourSlotWriter<W>, FourSlotReader<W>), AllocError> {
        let opening = Numbered {
            number: 0,
            words: *words,
        };
        let (cell, put, get) = FourSlotCell::make_from(alloc, &opening)?;
        let cell = Arc::new(alloc, cell)?;
        let other = Arc::try_clone(&cell)?;
        let writer = FourSlotWriter {
            cell,
            put,
            number: 0,
        };
        Ok((writer, FourSlotReader { cell: other, get }))
    }
}
