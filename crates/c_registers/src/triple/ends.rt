//! What a pass of a triple buffer does with its cell.
ghost use Rattle.std.specs.Prelude.{◌≡◌, ◌+◌, ◌≤◌, ⊤};
ghost use Rattle.std.specs.Arc.{arc_value};
ghost use Rattle.std.specs.Borrow.{sem, follows_so};
ghost use mathlib.Core.Option.{none};
ghost use Rattle.cell_triple.specs.Words.{is_get_of, at_hand_of};
ghost use Rattle.c_registers.specs.Numbers.{numbered};
ghost use Rattle.c_registers.specs.TripleCalls.{HasReadBy, StaysBy, Stays, at_hand};
ghost use Rattle.c_registers.specs.contracts.triple.TripleEnds as ends;
ghost use Rattle.c_registers.specs.contracts.triple.TripleReader as reader;

use super::{TripleEnds, TripleReader};
use crate::numbered::Numbered;
use cell_contract::Calls;

impl<W: Copy> TripleEnds<W> {
    #[inline]
    pub(super) fn read(&mut self) -> Numbered<W>
        requires own { is_get_of (arc_value self.old.cell) self.old.get }
        ensures own { is_get_of (arc_value self.new.cell) self.new.get }
        ensures read { HasReadBy self.old self.new result }
    {
        self.cell.read(&mut self.get)
    }

    #[inline]
    pub(super) fn look(&mut self) -> u64
        requires own { is_get_of (arc_value self.old.cell) self.old.get }
        ensures own { is_get_of (arc_value self.new.cell) self.new.get }
        ensures look { (w : W) × HasReadBy self.old self.new (numbered result w) }
    {
        self.cell.read_with(&mut self.get, |record| record.number)
    }

    #[inline]
    fn hold<'a>(&'a mut self) -> &'a Numbered<W>
        requires own { is_get_of (arc_value self.old.cell) self.old.get }
        ensures* same { sem 𝓛
            (follows_so (ends.the_row W.row W.Clone) (ends.the_row W.row W.Clone) self.entry.ghost_name none (λ _ _. ⊤)
            (λ g. StaysBy self.old g)) }
        ensures held { result.now ≡ at_hand_of self.old.get }
    {
        let cell = &*self.cell;
        self.get.hold(cell)
    }
}

impl<W: Copy> TripleReader<W> {
    /// Lends the last answer, or the opening, where it lies, until the side is used again. No write
    /// goes into its slot meanwhile.
    #[inline]
    pub fn hold<'a>(&'a mut self) -> &'a Numbered<W>
        ensures* same { sem 𝓛
            (follows_so (reader.the_row W.row W.Clone)
            (reader.the_row W.row W.Clone) self.entry.ghost_name none (λ _ _. ⊤) (λ g. Stays self.old g)) }
        ensures held { result.now ≡ at_hand self.old }
    {
        self.room.inside().hold()
    }
}
