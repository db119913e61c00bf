//! The reader of a log whose records repeat: from bytes to its operations, whose records are numbers, or the first line
//! at fault.
#![tactic(auto)]

mod counts;
mod exchanges_log;
pub mod laws;
mod line;
mod log;
mod number;
mod numbering;
mod reader;

pub use exchanges_log::ExchangesLog;
pub use log::read_exchanges;
pub use number::number_op;
pub use numbering::Numbering;
