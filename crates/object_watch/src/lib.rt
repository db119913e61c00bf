//! Watching a log of an object as it comes: `take` an operation, `rise` to a moment by which nothing more begins, and
//! `finish` where nothing more comes.
#![tactic(auto)]

mod ends;
pub mod laws;
mod level;
mod pass;
mod remainder;
mod watch;

pub use remainder::Remainder;
pub use watch::{Ended, Risen, Watch, WatchError, finish, open_watch, rise, take};
