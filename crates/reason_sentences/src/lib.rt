//! A reason in one sentence, with the times that show it; and which of the kept operations it names.
#![tactic(auto)]

mod beside;
mod crossed;
mod kept;
mod named;
mod pieces;
mod seen;
mod sentence;
mod text;
mod times;

pub use beside::place_at;
pub use kept::{is_item, kept_at, write_of};
pub use named::{in_kept, is_named, is_named_next, next_of, shown_of};
pub use pieces::{Piece, push_pieces};
pub use seen::{MOST_SEEN, could_see, sees_opening};
pub use sentence::{push_sentence, push_unwritten};
pub use text::{push_line_of, push_u64, push_words};
