//! The triple buffer: one word and three slots of one table, that two threads share without waiting. It meets the
//! contract of `cell_contract`.
//!
//! The rule that its word and slots keep between any two steps stands in `specs/Rule.antt`,
//! and `laws` says what it means.
#![tactic(auto)]

mod calls;
mod cell;
mod fill;
mod hold;
pub mod laws;
mod notes;
mod plays;
mod table;

pub use cell::{TripleCell, TripleGet, TriplePut, TripleReceipt};
pub use notes::TripleSight;
