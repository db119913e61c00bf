//! The last answer where it lies, lent for as long as the pass is.
ghost use Rattle.std.specs.Prelude.{◌≡◌, ⊤};
ghost use Rattle.std.specs.Borrow.{sem, follows_so};
ghost use mathlib.Core.Option.{none};
ghost use Rattle.cell_triple.specs.Words.{is_get_of, at_hand_of};
ghost use Rattle.cell_triple.specs.Lent.{IsSame};
ghost use Rattle.cell_triple.specs.contracts.cell.TripleGet.{the_row};

use crate::cell::{TripleCell, TripleGet};
use cell_contract::Lawful;

/// Nothing is written to the place while it is lent.
#[inline]
fn read_only<'a, T>(place: &'a mut T) -> &'a T
    ensures* same { sem 𝓛 (follows_so T.row T.row place.entry.ghost_name none (λ _ _. ⊤) (λ x. x ≡ place.old)) }
    ensures value { result.now ≡ place.old }
{
    &*place
}

impl<T: Lawful> TripleGet<T> {
    /// Lends the last answer, or the opening, where it lies, until the pass is used again. Makes no access. No write
    /// goes into the slot that a pass holds, so it stays the same record.
    #[inline]
    pub fn hold<'a>(&'a mut self, cell: &'a TripleCell<T>) -> &'a T
        requires own { is_get_of cell.now self.old }
        ensures* same { sem 𝓛 (follows_so (the_row T.row) (the_row T.row) self.entry.ghost_name none (λ _ _. ⊤)
            (λ g. IsSame self.old g)) }
        ensures held { result.now ≡ at_hand_of self.old }
    {
        let slot = self.slot;
        read_only(self.seat.place(&cell.table, slot))
    }
}
