//! What `fsr` answers to a history with an order of it, and the run of the program that has the command `check` alone.
#![tactic(auto)]

mod program;
mod verdict;

pub use program::run;
pub use verdict::check;
