//! The reader of a whole log in lines: from bytes to all of its operations, whose records are numbers. What is at fault
//! where it reads none, `lines_log::read_lines` tells.
#![tactic(auto)]

mod line;
mod log;
mod reader;
mod unread;
mod whole_log;

pub use log::read_whole;
pub use unread::Unread;
pub use whole_log::WholeLog;
