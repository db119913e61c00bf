//! The two sides of a cell, and the calls that C makes on them through handles, over any record, cell, side and handle.
//!
//! A handle has a box of one side, or nothing of its type, so a call that is handed an empty handle, or another side,
//! answers by a status. What a handle is, and which side it can have, is for the crate above to say. Records are
//! numbered: the opening is number 0, and each write has the next number.
#![tactic(auto)]

mod calls;
mod four_slot;
mod hands;
mod numbered;
mod roles;
mod room;
mod status;
mod triple;

pub use calls::{BUSY, end, hold, lacks, look, make, publish, read, slot, write};
pub use four_slot::{FourSlotReader, FourSlotWriter};
pub use hands::{Hand, Holds, Wraps};
pub use numbered::Numbered;
pub use roles::{Opens, Reading, Writing};
pub use room::Room;
pub use status::{
    CUT_OFF, DONE, ENDED, IN_USE, LIMIT, NO_MEMORY, OLDER, OTHER_SIDE, PROCESSES, REFUSED,
};
pub use triple::{TripleEnds, TripleFiller, TripleReader, TripleWriter};
