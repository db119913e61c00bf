//! The sweep, which decides whether a log of an object has a lawful order, after G. Lowe, 2017, and its rules.
#![tactic(auto)]

mod at_hand;
mod beam;
mod choice;
mod configuration;
mod ending;
mod event;
mod front;
mod held;
pub mod laws;
mod log_sweep;
mod narrow;
mod places;

pub use configuration::Configuration;
pub use log_sweep::{SweepError, Verdict, sweep};
