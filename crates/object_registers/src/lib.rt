//! Registers as objects, which may have compare-and-set, and may refuse writes past a limit.
#![tactic(auto)]

mod exchanging;
pub mod laws;
mod limited;
mod limited_exchanging;

pub use exchanging::{Exchange, Exchanging};
pub use limited::{Access, Limited};
pub use limited_exchanging::LimitedExchanging;
