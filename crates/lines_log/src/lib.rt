//! The reader of a log in lines: from bytes to the few operations that are kept of it, whose records are
//! numbers, or the first line at fault.
#![tactic(auto)]

mod faults;
mod line;
mod log;
mod number;
mod reader;
mod thin;

pub use faults::refused_at;
pub use line::{judged_end, same_key};
pub use log::{HEADER, finish, first_key, is_end, read_lines, text_of};
pub use number::{fitted, number_op};
pub use reader::Reader;
