//! What `fsr` answers to a log whose records repeat: the verdict of the sweep, and what shows that a lost log is so.
#![tactic(auto)]

mod evidence;
mod exchanges;
mod exchanges_text;
mod judgement;
pub mod laws;

pub use evidence::Evidence;
pub use exchanges::order_exchanges;
pub use judgement::Judgement;
