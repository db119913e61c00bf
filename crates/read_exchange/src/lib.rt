//! The lines of a log whose records repeat: its header, its operations, among them compare-and-sets, and the line that
//! may end it.
#![tactic(auto)]

mod compare;
mod form;
mod header;
pub mod laws;
mod line;
mod operation;
mod refusal;

pub use header::read_exchange_header;
pub use line::{ExchangeLine, ExchangeOp, TextExchange};
pub use operation::{exchange_in, read_exchange};
pub use refusal::is_refusal;
