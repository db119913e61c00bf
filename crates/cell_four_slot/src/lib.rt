//! The four-slot cell: the register of H. Simpson, 1990, that two threads share without waiting, over words and slots
//! of one table. It meets the contract of `cell_contract`.
//!
//! The rule that its words and slots keep between any two steps stands in `specs/Rule.antt`,
//! and `laws` says what it means.
#![tactic(auto)]

mod bits;
mod calls;
mod cell;
pub mod laws;
mod notes;
mod plays;
mod table;

pub use bits::{bit_of, other_bit, set_bit, slot_of, word_of};
pub use cell::{FourSlotCell, FourSlotGet, FourSlotPut, FourSlotReceipt};
pub use notes::FourSlotSight;
