//! Documents of schedules and races, as `fsr` reads them: from bytes to a document, a file for each kind.
#![tactic(auto)]

mod board;
mod cell;
mod document;
mod matrix;
mod plans;
mod race;
mod ranges;
mod read;
mod terms;
mod turns;

pub use cell::cell_in;
pub use document::{RaceDocument, ScheduleDocument};
pub use ranges::{MAX_STEPS, steps_in_range};
pub use read::{race_document, read_race, read_schedule, schedule_document};
