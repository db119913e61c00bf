//! The lines of a log: its header, its operations, and the line that may end it.
#![tactic(auto)]

mod header;
mod line;
mod operation;
mod repeats;

pub use header::read_header;
pub use line::{LineOp, LogHeader, LogLine};
pub use operation::{ends_later, read_line};
pub use repeats::has_repeats;
