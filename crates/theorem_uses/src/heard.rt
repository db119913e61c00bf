//! What the passes of a running cell know at first, and what a reader sees again.
ghost use Rattle.std.specs.Prelude.{◌≡◌, [], ◌∷◌, IfOk};
ghost use Rattle.cell_contract.specs.Intervals.{known_as, no_times};
ghost use Rattle.cell_triple.specs.Words.{is_get_of};

use cell_contract::{Calls, Lawful};
use cell_triple::{TripleCell, TripleGet};
use std::alloc::{AllocError, Global};

/// A cell whose reader learns of the opening: it has heard of this one receipt, by which nothing was written.
pub fn heard_of_nothing<T: Lawful, C: Calls<T>>(
    alloc: Global,
    first: T,
) -> Result<(C, C::Put, C::Get), AllocError>
    requires { T.fits first }
    ensures { IfOk result (λ r. C.heard r.2 ≡ known_as [] no_times ∷ []) }
{
    let (cell, put, get) = C::make(alloc, first)?;
    let mut put = put;
    let mut get = get;
    let receipt = cell.tell(&mut put);
    cell.learn(&mut get, receipt);
    Ok((cell, put, get))
}

/// Two further looks at the last answer of a triple buffer see one record, whatever was written between them.
pub fn seen_again<T: Lawful>(cell: &TripleCell<T>, get: &mut TripleGet<T>) -> (T, T)
    requires { is_get_of cell.now get.old }
    ensures { result.1 ≡ result.0 }
{
    let first = cell.look_again(get, |item| *item);
    let second = cell.look_again(get, |item| *item);
    (first, second)
}
