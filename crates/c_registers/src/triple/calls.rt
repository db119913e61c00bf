//! What the two sides of a triple buffer do.
ghost use Rattle.std.specs.Prelude.{◌≡◌, ◌+◌, ◌<◌, ◌≤◌, ◌^◌, true, false, IfOk};
ghost use Rattle.c_registers.specs.TripleCalls.{IsMade, HasWritten, HasRead};

use super::{TripleEnds, TripleFiller, TripleReader, TripleWriter};
use crate::numbered::{Numbered, Numbering};
use crate::roles::{Opens, Reading, Writing};
use crate::room::Room;
use cell_contract::Calls;
use cell_triple::TripleCell;
use std::alloc::{AllocError, Global};
use std::sync::Arc;

impl<W: Copy> Reading<W> for TripleReader<W> {
    ghost has_read = { HasRead };

    #[inline]
    fn read(&mut self) -> Numbered<W> {
        self.room.inside().read()
    }

    #[inline]
    fn look(&mut self) -> u64 {
        self.room.inside().look()
    }
}

impl<W: Copy> Writing<W> for TripleWriter<W> {
    ghost last = { λ p. p.number };

    ghost has_written = { HasWritten };

    #[inline]
    fn write(&mut self, words: &W) -> bool {
        let Some(number) = self.number.checked_add(1) else {
            return false;
        };
        self.room.inside().write(&Numbering { number, words });
        self.number = number;
        true
    }
}

impl<W: Copy> Opens<W, TripleReader<W>> for TripleWriter<W> {
    ghost is_made = { IsMade };

    fn open(alloc: Global, words: &W) -> Result<(TripleWriter<W>, TripleReader<W>), AllocError> {
        let opening = Numbered {
            number: 0,
            words: *words,
        };
        let (cell, put, get) = TripleCell::make_from(alloc, &opening)?;
        let cell = Arc::new(alloc, cell)?;
        let other = Arc::try_clone(&cell)?;
        let room = Room {
            inner: TripleFiller { cell, put },
        };
        let writer = TripleWriter { room, number: 0 };
        let inner = TripleEnds { cell: other, get };
        let room = Room { inner };
        Ok((writer, TripleReader { room }))
    }
}
