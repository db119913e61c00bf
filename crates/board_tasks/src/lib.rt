//! Tasks over a board whose calls are atomic by their intervals. A lane is a pass with a script of calls and the log of
//! what they answered; `run_tasks` runs each lane in a thread of its own, and `finish_lanes` ends the board: the logs
//! tell of calls that are atomic together. `check_origin` finds exactly the logs that are sound, and so are those of a
//! board's run and those that have one order.
#![tactic(auto)]

mod gate;
mod jobs;
mod lane;
mod lanes;
mod origin;
mod tasks;

pub use gate::{CountingGate, Gate, OpenGate, TimedGate, Turn};
pub use lane::{Entry, Lane, Reply};
pub use lanes::{finish_lanes, finish_left, into_passes, make_lanes};
pub use origin::{HasLog, Origin, check_origin, check_origin_beside};
pub use tasks::run_tasks;
