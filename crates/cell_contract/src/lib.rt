//! Registers that two threads share without waiting, and families of them. In a cell one thread writes whole records of
//! several words, and another reads them. In a family each process writes to each other one, and reads what each other
//! one wrote to it, all in one time. No call waits or fails, and only making a cell or a family takes memory. Where a
//! swap is one instruction, no call tries again.
//!
//! A program implements `Lawful` and `Kept` for its record: what a lawful record is, and which record may stand after
//! which. `C::make` gives a cell with its two passes, the right to write and the right to read, one for each thread. An
//! answer of `read` is one whole lawful record, no older than any that its pass saw or was told by a receipt.
//!
//! A process of a family has one seat for all that it writes and reads. The time is the number of a step in the one
//! sequence of the family's steps, and no time of a clock: a process's times are the positions of its steps in a
//! schedule, as the played construction has one. What ties the steps of two processes together is what a program does
//! in its own order, and receipts.
//!
//! This crate has the contracts, `Calls`, `Cell` and `Family`, and what both mechanisms that meet them share.
//! `TripleCell` stands in `cell_triple`, `FourSlotCell` in `cell_four_slot`; `family_triple` and `family_four_slot`
//! have their families. `laws` says what it is to be atomic by intervals.
#![tactic(auto)]

mod cell;
mod closed;
mod family;
pub mod laws;
mod lays;
mod said;
mod sight;
mod spare;
mod times;

pub use cell::{Calls, Cell, Kept, Lawful};
pub use closed::empty;
pub use family::{Family, Planned, Sees, SharedFamily, SoFar};
pub use lays::{Lays, Whole};
pub use said::{Found, Said};
pub use sight::{Parts, Sight};
pub use spare::Spare;
pub use times::{Dated, Known, Times};
