//! The player of a four-slot register's schedules, and what its report promises.
#![tactic(auto)]

mod player;

pub use player::play_cell;
