//! A family of triple buffers: registers of one writer and one reader each, from each of 2 to 16 processes to each
//! other one, in one table and so in one time. `TripleFamily` meets the contract of `cell_contract`: each write and
//! each read makes one step of the schedule that all processes share, and copies the record once or not at all.
//!
//! A write is its swap. A read is its load, or its swap where the load found the mark: such a load decides
//! nothing, and isn't in the schedule.
#![tactic(auto)]

mod family;
pub mod mechanism;
pub mod notes;
mod plays;
mod slots;
mod table;

pub use family::{TripleFamily, TripleReceipt, TripleSeat};
