//! A family of four-slot cells: registers of one writer and one reader each, from each of 2 to 16 processes to each
//! other one, in one table and so in one time. `FourSlotFamily` meets the contract of `cell_contract`: each write and
//! each read makes three steps of the schedule that all processes share, by plain loads and stores of one word, and
//! copies the record once or not at all.
//!
//! A step is one of the mechanism. R2's store is left out where `reading` has the pair already, and W5's where `latest`
//! has it. Then R3's load or W4's store makes both steps, and they take two positions of the schedule. So an access has
//! three steps whatever it found. Where a read finds the slot of the last answer again, it has the same record, and a
//! column doesn't visit that slot.
//!
//! The rule that words, slots and seats keep between any two steps stands in `specs/FourSlots.antt`, where each cell
//! lies in `specs/Places.antt`, and what contracts see of a seat in `specs/Seated.antt`.
#![tactic(auto)]

mod family;
pub mod mechanism;
pub mod notes;
mod plays;
mod table;

pub use family::{FourSlotFamily, FourSlotReceipt, FourSlotSeat};
