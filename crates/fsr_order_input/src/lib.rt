//! The input of the command `order`, by whether it is a log in lines, its commands, and the words of the programs that
//! have it alone.
#![tactic(auto)]

mod command;
mod input;
mod kinds;
mod log;
mod words;

pub use command::{LogCommand, run_log};
pub use input::take_log;
pub use kinds::are_lines;
pub use log::LogInput;
pub use words::show_of;
