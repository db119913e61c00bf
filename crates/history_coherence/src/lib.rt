//! Coherence: whether some order of a log of one register keeps each task's own order and gives each read the latest
//! record, after L. Lamport, How to Make a Multiprocessor Computer That Correctly Executes Multiprocess Programs, 1979.
//! Records are numbers, which the caller gives; 0 is the opening.
#![tactic(auto)]

mod check;
mod coherence;
mod edge;
mod key;
pub mod laws;
mod once;
mod order;
mod previous;
mod rank;
mod search;
mod trail;
mod walk;

pub use coherence::{Coherence, Incoherence, Link};
pub use once::check_written;
pub use search::search_coherent;
