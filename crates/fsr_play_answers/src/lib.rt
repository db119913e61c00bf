//! What `fsr` answers to a schedule: the report of its run, played step by step; and the run of the program that
//! has the command `play` alone.
#![tactic(auto)]

mod cell_answer;
mod plays;
mod program;

pub use plays::play;
pub use program::run;
