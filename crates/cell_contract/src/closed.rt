//! The end of a table.
ghost use Rattle.std.specs.Mem.Slots.{IsFull};

use atomic_table::Closed;
use std::alloc::Allocator;

/// Drops what the slots of a closed table have.
pub fn empty<S: Copy, A: Allocator>(mut closed: Closed<S, A>)
    requires { IsFull closed.slots }
{
    let mut i = 0;
    while i < closed.slot_count() {
        closed.take(i);
        i += 1;
    }
    closed.free();
}
