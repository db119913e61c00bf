//! Of which lines the words of a record are: the header's, and those of writes.
#![tactic(auto)]

mod line;
mod origins;
mod words;

pub use line::LineWords;
pub use origins::push_origins;
