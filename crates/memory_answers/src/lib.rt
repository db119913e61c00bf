//! What `fsr` and `picture` answer to a document in memory: the text, or the line of a fault, goes to a buffer.
//! No stream, word or thread is needed, and nothing is copied of the document but by `order`.
#![tactic(auto)]

mod answers;
mod handing;
pub mod laws;

pub use answers::{check, order, picture, play, show_numbered};
