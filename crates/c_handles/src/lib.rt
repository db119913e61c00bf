//! Handles that C can hold, each with a type of its own, and the sides of cells and the places
//! at boards that they can have.
//!
//! A handle has an erased box of its side, or nothing. C's struct is the same for all of them, so a call may be handed
//! a handle of another type: `live` has the number of the type, and what has another number has no side of this one.
#![tactic(auto)]

pub mod handles;
mod layout;
mod parts;
mod place;
mod record;
mod side;

pub use place::{FourSlotPlace, TriplePlace};
pub use record::{
    Record8, Record24, Record64, Record128, Record256, Record1024, Record4096, Record65536,
    Record1048576,
};
pub use side::{
    FourSlotPlace24, FourSlotPlace256, FourSlotPlace4096, FourSlotReader8, FourSlotReader24,
    FourSlotReader64, FourSlotReader128, FourSlotReader256, FourSlotReader1024, FourSlotReader4096,
    FourSlotReader65536, FourSlotReader1048576, FourSlotSeat24, FourSlotSeat256, FourSlotSeat4096,
    FourSlotWriter8, FourSlotWriter24, FourSlotWriter64, FourSlotWriter128, FourSlotWriter256,
    FourSlotWriter1024, FourSlotWriter4096, FourSlotWriter65536, FourSlotWriter1048576,
    TriplePlace24, TriplePlace256, TriplePlace4096, TripleReader8, TripleReader24, TripleReader64,
    TripleReader128, TripleReader256, TripleReader1024, TripleReader4096, TripleReader65536,
    TripleReader1048576, TripleSeat24, TripleSeat256, TripleSeat4096, TripleWriter8,
    TripleWriter24, TripleWriter64, TripleWriter128, TripleWriter256, TripleWriter1024,
    TripleWriter4096, TripleWriter65536, TripleWriter1048576,
};
