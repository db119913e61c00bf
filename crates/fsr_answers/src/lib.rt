//! What `fsr` answers to each of its commands, and its run over its streams. A race runs each script by a task of its
//! own over one board, whatever family the board stands on.
#![tactic(auto)]

mod program;
mod races;

pub use program::{answer, run};
pub use races::{race, run_race};
