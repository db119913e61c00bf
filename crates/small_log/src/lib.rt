//! A small log that has no lawful order, made of a larger one: the operations that a reason names, with the writes of
//! their records.
#![tactic(auto)]

mod small;
mod told;

pub use small::small_text;
