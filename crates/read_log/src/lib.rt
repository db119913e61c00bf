//! Documents of a history alone, as `order` reads them: from bytes to a history to be ordered, and the
//! search for a lawful order of it.
#![tactic(auto)]

mod lines;
mod log;
mod search;

pub use lines::lines_in;
pub use log::{log_document, read_log};
pub use search::search_log;
