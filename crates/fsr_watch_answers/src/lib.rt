//! What `fsr` tells of a log as it comes, and the run of `fsr watch` over its streams: the line at which the log is
//! lost is told at once.
#![tactic(auto)]

mod lines;
mod piece;
mod program;
mod split;
mod text;
mod watch;
mod words;

pub use program::run;
pub use watch::watch_input;
pub use words::budget_in;
