//! Where a record comes from that an operation found in a register with compare-and-set: which operations can have left
//! it.
#![tactic(auto)]

pub mod laws;
mod source;

pub use source::{Unsourced, unsourced_at};
