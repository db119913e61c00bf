//! Records whose every word tells which write they are of, and rounds of calls on running cells and boards: what is
//! found in them, torn, older and foreign records, how many calls there were, and how a soak ends.
#![tactic(auto)]

mod boards;
mod finding;
pub mod pair;
pub mod planted;
pub mod record;

pub use boards::round;
pub use finding::{Finding, Tally, exit, last_read};
