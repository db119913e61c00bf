//! The pictures of documents, and a run of the program that draws over its streams.
#![tactic(auto)]

mod drawings;
mod moments;
mod program;
mod scenes;

pub use drawings::{Shown, answer};
pub use program::{PICTURE, run};
