//! The tasks of a control program over a board: one sets limits, one publishes a reading, one steers a motor by both.
//! They run in threads until they are told to stop, or call in turn, over any family of registers.
#![tactic(auto)]

mod boards;
mod calls;
mod control;
mod motors;
mod program;
mod receipts;
mod tasks;
mod threads;
mod turns;

pub use boards::{last_of_two, two_boards};
pub use calls::{publish, publish_and_tell, set_limits, steer, steer_when_told};
pub use control::Control;
pub use motors::Counted;
pub use program::run;
pub use receipts::ends_in_order;
pub use tasks::Motor;
