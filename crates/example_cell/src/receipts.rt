//! What the time of a cell's calls buys one task: a read that begins after a receipt was learnt gives the very record
//! that the receipt names, where no later one was written, whatever the law of the records says.
ghost use Rattle.std.specs.Prelude.{◌≡◌};
ghost use Rattle.cell_contract.specs.Intervals.{IsNoOlder};
ghost use Rattle.cell_contract.specs.Running.{last_or};

use cell_contract::{Calls, Lawful};

/// Writes the item, tells and learns of it, reads, and ends the cell. Gives the answer, which is the item.
pub fn heard<T: Lawful, C: Calls<T>>(cell: C, put: C::Put, get: C::Get, item: T) -> T
    requires own { C.is_put cell put × C.is_get cell get }
    requires lawful { T.fits item × T.rises (last_or (C.opening cell) (C.written put)) item }
    ensures { result ≡ item }
{
    let mut put = put;
    let mut get = get;
    cell.write(&mut put, item);
    let receipt = cell.tell(&mut put);
    cell.learn(&mut get, receipt);
    let answer = cell.read(&mut get);
    cell.finish(put, get);
    answer
}

/// Tells of all that was written, learns of it, and reads twice. The cell goes on, and yet both answers were really
/// written: each is the last record of that time, or one written after it.
pub fn followed<T: Lawful, C: Calls<T>>(cell: &C, put: &mut C::Put, get: &mut C::Get) -> (T, T)
    requires { C.is_put cell.now put.old × C.is_get cell.now get.old }
    ensures own { C.is_put cell.now put.new × C.is_get cell.now get.new }
    ensures first { IsNoOlder (C.opening cell.now) (C.written put.old) result.0 }
    ensures second { IsNoOlder (C.opening cell.now) (C.written put.old) result.1 }
{
    let receipt = cell.tell(put);
    cell.learn(get, receipt);
    let first = cell.read(get);
    let second = cell.read(get);
    (first, second)
}
