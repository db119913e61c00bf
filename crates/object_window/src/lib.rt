//! Windows of a log of a register with compare-and-set: few operations that no order has, whatever the register held
//! before.
#![tactic(auto)]

mod find;
pub mod laws;
mod loss;
mod window;

pub use find::{Window, find_window};
pub use loss::{Loss, loss_of};
pub use window::little_log;
