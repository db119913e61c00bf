//! The reader of a log in lines whose operations have several keys: from bytes to what is kept of the log of each key,
//! or the first line at fault.
#![tactic(auto)]

mod key_name;
mod key_reader;
mod keys;
mod keys_reader;
mod own_line;
mod places;

pub use keys::read_keys;
