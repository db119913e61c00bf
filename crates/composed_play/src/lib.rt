//! The composed board, a matrix each of whose cells is a four-slot cell, stepped event by event, and the player of its
//! schedules.
#![tactic(auto)]

mod board;
mod board_report;
mod board_term;
pub mod laws;

pub use board::BoardCore;
pub use board_report::play_board;
