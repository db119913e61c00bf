//! What the theorems of the checker, a cell and a board come to, part by part.
ghost use Rattle.std.specs.Prelude.{IsTrue};
ghost use Rattle.theorem_uses.specs.Products.{BoardCalls, BoardCallStands, BoardShows};
ghost use Rattle.theorem_uses.specs.Products.{CellHeeds, CellIsEnded, CellReads};
ghost use Rattle.theorem_uses.specs.Products.{CellWrites, GreatestIsThere, SearchMissesNone};
ghost use Rattle.theorem_uses.specs.Products.{VerdictIsExact, WritesChoose};

use board_live::{Posted, RecordLaw};
use cell_contract::{Calls, Family, Lawful};

/// A verdict is exact, and a search misses no order.
pub fn checkers_show<R: Copy + Ord>()
    ensures verdict { VerdictIsExact (λ x y. IsTrue (R.eq x y)) }
    ensures search { SearchMissesNone (λ x y. IsTrue (R.eq x y)) }
{}

/// A cell's write, receipt, read and end do what they say, whatever was done with its passes before.
pub fn cells_show<T: Lawful, C: Calls<T>>()
    ensures writes { CellWrites ⟦<C as Calls<T>>⟧ T.fits T.rises }
    ensures tells { CellHeeds ⟦<C as Calls<T>>⟧ T.fits T.rises }
    ensures reads { CellReads ⟦<C as Calls<T>>⟧ T.fits T.rises }
    ensures ends { CellIsEnded ⟦<C as Calls<T>>⟧ T.fits T.rises }
{}

/// A board's read and write are calls that stand in one order with all calls so far, and all its
/// calls are atomic at its end.
pub fn products_of_boards_show<V: RecordLaw, F: Family<Posted<V>>>()
    ensures calls { BoardCalls ⟦<F as Family<Posted<V>>>⟧ }
    ensures stands { BoardCallStands ⟦<F as Family<Posted<V>>>⟧ }
    ensures shows { BoardShows ⟦<F as Family<Posted<V>>>⟧ }
    ensures greatest { GreatestIsThere ⟦<F as Family<Posted<V>>>⟧ }
    ensures chooses { WritesChoose ⟦<F as Family<Posted<V>>>⟧ }
{}
