//! Running boards over a family of registers in one time: every call is an operation with an interval, and all calls
//! together are atomic by their intervals.
#![tactic(auto)]

mod board;
mod calls;
mod deals;
mod ends;
mod left;
mod passes;
mod receipts;
mod record;
mod so_far;

pub use board::{Board, Pass, Refused};
pub use deals::BoardError;
pub use receipts::Receipt;
pub use record::{Posted, RecordLaw};
