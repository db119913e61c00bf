//! What a running cell promises.
ghost use Rattle.cell_contract.specs.Running.{last_or};
ghost use Rattle.theorems.specs.Cells.{CellTheorem};

use cell_contract::{Calls, Lawful};

/// Writes the item, tells and learns of it, reads, and ends the cell, whatever was done with its
/// passes before. Gives the answer.
pub fn cell_theorem<T: Lawful, C: Calls<T>>(cell: C, put: C::Put, get: C::Get, item: T) -> T
    requires own { C.is_put cell put × C.is_get cell get }
    requires lawful { T.fits item × T.rises (last_or (C.opening cell) (C.written put)) item }
    ensures { CellTheorem ⟦<C as Calls<T>>⟧ T.fits T.rises cell put get item result }
{
    let mut put = put;
    let mut get = get;
    cell.write(&mut put, item);
    let receipt = cell.tell(&mut put);
    cell.learn(&mut get, receipt);
    let answer = cell.read(&mut get);
    cell.finish(put, get);
    answer
}
