//! The writer's slot, lent for as long as the pass is.
ghost use Rattle.std.specs.Prelude.{◌≡◌};
ghost use Rattle.std.specs.Borrow.{sem, Lends};
ghost use Rattle.cell_triple.specs.Words.{is_put_of};
ghost use Rattle.cell_triple.specs.Lent.{placed_by, put_with};
ghost use Rattle.cell_triple.specs.contracts.cell.TriplePut.{the_row};

use crate::cell::{TripleCell, TriplePut};
use cell_contract::Lawful;

impl<T: Lawful> TriplePut<T> {
    /// Lends the writer's slot, to be filled where the record will lie, until the pass is used again. Makes no
    /// access. It still has an older record, or the opening. `TripleCell::write_placed` then shows what it has, and
    /// any other write fills it anew.
    #[inline]
    pub fn place<'a>(&'a mut self, cell: &'a TripleCell<T>) -> &'a mut T
        requires own { is_put_of cell.now self.old }
        ensures* lent { sem 𝓛 (Lends (the_row T.row) T.row self.entry result (put_with self.old)) }
        ensures value { result.now ≡ placed_by self.old }
    {
        let slot = self.slot;
        self.seat.place(&cell.table, slot)
    }
}
