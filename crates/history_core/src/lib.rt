//! Histories of operations on a shared register, after L. Lamport, On Interprocess Communication, 1986, which orders of
//! one are atomic, and the reasons why none is; and the law of a register that one side writes and one reads.
#![tactic(auto)]

mod band;
mod history;
pub mod laws;
mod list;
mod reason;
mod thinned;
mod wish;

pub use band::Band;
pub use history::{History, Kind, Op, Term, Verdict};
pub use list::Items;
pub use reason::{Reason, Search, SearchError};
pub use thinned::{LogAnswer, Thinned};
pub use wish::{MAX_LIMIT, PlayError, Wish};
