//! What `fsr` answers to a log in lines of one key whose records are written once: a lawful order of it, or the reason
//! why there is none.
#![tactic(auto)]

mod answer;
mod once;
mod program;

pub use answer::{lawful_exit, order_lines, search_log, status_of};
pub use once::order_once;
pub use program::run;
