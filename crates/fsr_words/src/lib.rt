//! The words of `fsr`: the command that they name, as clap matches them, and what is told where they name none.
#![tactic(auto)]

mod command;
pub mod laws;
mod refusal;

pub use command::{Asked, NoCommand, Request, Want, asked_of};
pub use refusal::{tell_refusal, tell_unopened};
