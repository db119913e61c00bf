//! A place at a board, and the calls that C makes on it through a handle, over any record, family and handle.
//!
//! A place is a share of the board with the pass of one of its processes. What a handle is, and which place it can
//! have, is for the crate above to say.
#![tactic(auto)]

mod calls;
mod known;
mod makes;
mod mark;
mod place;
mod posts;
mod seated;
mod sits;

pub use calls::{read_place, read_place_since, write_place};
pub use makes::make_places;
pub use mark::Mark;
pub use place::{HasPlace, Place, open_places};
pub use posts::Posts;
pub use seated::Seated;
pub use sits::{Free, Sits, Sitting};
