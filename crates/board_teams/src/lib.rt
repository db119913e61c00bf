//! Boards for the tests of other crates: a team is a board with the passes of all its processes in one hand, a crew
//! a board whose tasks have run.
#![tactic(auto)]

mod crew;
mod team;

pub use crew::{Crew, point, run_plans, scripts};
pub use team::{Given, Step, Team};
