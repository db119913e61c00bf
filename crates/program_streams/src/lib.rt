//! The streams of a program, and how it ends: its input is read whole, its text written whole, their failures are
//! counted, and each end has its status. And whether threads can start.
#![tactic(auto)]

mod exit;
mod probe;
mod space;
mod stream;
mod transfer;

pub use exit::Exit;
pub use probe::can_start;
pub use space::ends_in_space;
pub use stream::{Failed, Over, Sink, Source};
pub use transfer::{InputFault, read_input, read_piece, tell, write_text};
