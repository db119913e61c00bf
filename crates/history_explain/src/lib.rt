//! What shows that an order of a history is lawful or isn't: the first that breaks a rule, and points, moments in the
//! operations' intervals that never fall along the order.
#![tactic(auto)]

mod breaks;
pub mod laws;
mod point;

pub use breaks::{Break, first_break};
pub use point::points;
