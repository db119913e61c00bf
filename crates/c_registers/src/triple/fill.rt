//! What a pass of a triple buffer writes to its cell, and what lends its slot.
ghost use Rattle.std.specs.Prelude.{◌≡◌, ◌+◌, ◌<◌, ◌≤◌, ◌^◌, [], ◌∷◌, ◌++◌, true, false};
ghost use Rattle.std.specs.Arc.{arc_value};
ghost use Rattle.std.specs.Borrow.{sem, Lends};
ghost use Rattle.cell_contract.specs.Running.{last_or};
ghost use Rattle.cell_triple.specs.Words.{is_put_of, opening_of, written_by};
ghost use Rattle.cell_triple.specs.Lent.{placed_by};
ghost use Rattle.c_registers.specs.Numbers.{numbered};
ghost use Rattle.c_registers.specs.TripleCalls.{HasPublished, HasWrittenBy, filler_with, writer_with, in_slot};
ghost use Rattle.c_registers.specs.contracts.numbered.Numbered as record_of;
ghost use Rattle.c_registers.specs.contracts.triple.TripleFiller as filler;
ghost use Rattle.c_registers.specs.contracts.triple.TripleWriter as writer;

use super::{TripleFiller, TripleWriter};
use crate::numbered::{Numbered, Numbering};

impl<W: Copy> TripleFiller<W> {
    /// Writes the record under its number, which is above the last one.
    #[inline]
    pub(super) fn write(&mut self, numbering: &Numbering<'_, W>)
        requires own { is_put_of (arc_value self.old.cell) self.old.put }
        requires above { (last_or (opening_of (arc_value self.old.cell)) (written_by self.old.put)).number
            < numbering.now.number }
        ensures own { is_put_of (arc_value self.new.cell) self.new.put }
        ensures written { HasWrittenBy self.old self.new (numbered numbering.now.number numbering.now.words.now) }
    {
        self.cell.write_laid(&mut self.put, numbering);
    }

    /// Lends the slot with the record that lies there.
    #[inline]
    fn place<'a>(&'a mut self) -> &'a mut Numbered<W>
        requires own { is_put_of (arc_value self.old.cell) self.old.put }
        ensures* lent { sem 𝓛 (Lends (filler.the_row W.row W.Clone) (record_of.the_row W.row) self.entry result
            (filler_with self.old)) }
        ensures value { result.now ≡ placed_by self.old.put }
    {
        let cell = &*self.cell;
        self.put.place(cell)
    }

    /// Shows the record that lies in the slot, under this number, which is above the last one.
    #[inline]
    fn publish(&mut self, number: u64)
        requires own { is_put_of (arc_value self.old.cell) self.old.put }
        requires above { (last_or (opening_of (arc_value self.old.cell)) (written_by self.old.put)).number < number }
        ensures own { is_put_of (arc_value self.new.cell) self.new.put }
        ensures written { HasWrittenBy self.old self.new (numbered number (placed_by self.old.put).words) }
    {
        self.place().number = number;
        self.cell.write_placed(&mut self.put);
    }
}

impl<W: Copy> TripleWriter<W> {
    /// Lends the words in the slot, to be filled where the record will lie, until the side is used again. They are an
    /// older record's, or the opening's. `publish` then shows them, and any other write fills the slot anew.
    #[inline]
    pub fn loan<'a>(&'a mut self) -> &'a mut W
        ensures* lent { sem 𝓛 (Lends (writer.the_row W.row W.Clone) W.row self.entry result (writer_with self.old)) }
        ensures value { result.now ≡ (in_slot self.old).words }
    {
        let lent = self.room.inside().place();
        &mut lent.words
    }

    /// Shows the words in the slot to the reader, under the next number. `false` where the numbers are used up.
    #[inline]
    pub fn publish(&mut self) -> bool
        ensures written { result ≡ true → HasPublished self.old self.new }
        ensures refused { result ≡ false → self.new ≡ self.old }
        ensures left { result ≡ true → self.old.number + 1 < 2 ^ 64 }
        ensures at_limit { result ≡ false → 2 ^ 64 ≤ self.old.number + 1 }
    {
        let Some(number) = self.number.checked_add(1) else {
            return false;
        };
        self.room.inside().publish(number);
        self.number = number;
        true
    }
}
