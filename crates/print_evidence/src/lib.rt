//! What shows that a log whose records repeat has no lawful order, as it is printed: the line at which the log is lost,
//! the lines of a window, or those of an operation that can't have found its record.
#![tactic(auto)]

mod limited;
mod lost;
mod together;
mod unsourced;

pub use limited::limited_lines;
pub use lost::lost_text;
pub use together::together_text;
pub use unsourced::{early_lines, unwritten_lines};
