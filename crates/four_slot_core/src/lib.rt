//! The four-slot register of H. Simpson, Four-slot fully asynchronous communication mechanism, IEE Proceedings E, 1990:
//! one writer and one reader share a record without waiting for each other, over four slots that are only safe.
#![tactic(auto)]

mod cell;
mod event;
pub mod laws;
mod schedule;
mod state;

pub use cell::CellCore;
pub use event::{ReadEvent, WriteEvent};
pub use schedule::{CellReport, CellSchedule, Turn};
pub use state::{Bits, InSlot, ReadStage, ReaderStage, Sides, Slot, Stage, State};
