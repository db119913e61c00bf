//! The lines of a text, on which of them an operation stands, and a text that takes a fraction of its bytes: a word
//! that lines of logs are made of is kept as one code, and so are two digits. White space has codes of its own, so
//! that lines are found among codes as among bytes.
#![tactic(auto)]

mod pack;
mod place;
mod split;
mod text;
mod word;

pub use place::{line_at, line_of};
pub use split::split_line;
pub use text::PackedText;
