//! The search of a thinned log for what a search of the whole would answer, and how many writes can stand before the
//! first refused write.
#![tactic(auto)]

mod limit;
mod search;

pub use limit::counted;
pub use search::search_thinned;
