//! What `fsr` answers to a log, in lines or as a document of kind `log`: by whether its records repeat, or are written
//! once.
#![tactic(auto)]

mod input;
mod logs;
mod program;

pub use logs::{order, order_bytes};
pub use program::run;
