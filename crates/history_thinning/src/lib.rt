//! Thinning: of a long log at most four operations of each record are kept. What a search finds among them is true of
//! the whole log. Records are numbers, which the caller gives; 0 is the opening.
#![tactic(auto)]

mod answer;
mod compact;
mod enter;
mod group;
pub mod laws;
mod rows;
mod thinner;

pub use answer::answer_of;
pub use thinner::Thinner;
