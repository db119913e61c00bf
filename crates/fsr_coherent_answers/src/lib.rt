//! What `fsr` answers to a log in lines that is asked for its coherence: that an order of it is coherent, or why none
//! is.
#![tactic(auto)]

mod answer;
mod lines;
mod places;
mod program;
mod text;

pub use answer::order_coherent;
pub use program::run;
