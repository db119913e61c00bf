//! What `fsr` answers to a document of kind `log`: a lawful order of it, or the reason why there is none. And the run
//! of the program that answers such documents alone.
#![tactic(auto)]

mod log_answer;
mod program;
mod text;

pub use log_answer::order_document;
pub use program::run;
