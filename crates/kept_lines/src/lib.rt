//! What the reader of a log in lines keeps: a number for each record, the records that were read, and the last
//! operation of each task. And what is kept of the log in the end, of one key or of several.
#![tactic(auto)]

mod hash;
mod keys_log;
mod lines_log;
mod links;
mod numbers;
mod reads;
mod texts;
mod turns;

pub use keys_log::{KeyLog, KeysLog};
pub use lines_log::LinesLog;
pub use numbers::RecordNumbers;
pub use reads::Reads;
pub use turns::{Last, TurnError, Turns};
