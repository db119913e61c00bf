//! The verdict on a log in lines, as it is printed: a reason by lines, the lines that it names and a sentence; and the
//! counts below it.
#![tactic(auto)]

mod counts;
mod log_text;
mod text;

pub use counts::{are_few, push_count, push_end, push_little};
pub use log_text::{lines_text, shows_little};
pub use text::{body_of, push_line, push_place_lines, push_writes, reason_text, verdict_text};
