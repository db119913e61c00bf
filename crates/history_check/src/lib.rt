//! The check that an order of a history is lawful: the four rules, one after the other.
#![tactic(auto)]

mod check;
pub mod ranges;

pub use check::check_order;
