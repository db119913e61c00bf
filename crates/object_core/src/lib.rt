//! Objects, logs of operations on one, and which orders of a log are lawful: linearizability, after
//! M. Herlihy and J. Wing, 1990.
#![tactic(auto)]

pub mod laws;
mod object;
mod operation;

pub use object::Object;
pub use operation::Operation;
