//! A log that is watched as it comes, a line at a time: from lines to the operations of a register with
//! compare-and-set, which know their lines, to floors, and to what is told.
#![tactic(auto)]

mod header;
mod held;
pub mod laws;
mod line;
mod lined;
mod number;
mod records;
mod tasks;
mod told;
mod watcher;

pub use line::{WatchLine, read_watched};
pub use lined::{Lined, LinedRegister};
pub use records::Records;
pub use tasks::Task;
pub use told::{Counts, Floor, Told, WatchFault};
pub use watcher::{Step, Watcher, watch_end, watch_line};
