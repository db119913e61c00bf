//! Fields that documents of several kinds have of a history: the kind of an operation by its name, and the range of a
//! limit.
#![tactic(auto)]

mod kind;
mod limit;

pub use kind::kind_named;
pub use limit::limit_in_range;
