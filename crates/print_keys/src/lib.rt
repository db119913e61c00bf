//! All that is printed of a log in lines whose operations have several keys: the verdict, and the counts of all keys
//! together.
#![tactic(auto)]

mod keys;
mod keys_verdict;
mod whole;

pub use keys::{Totals, added_up, keys_show_little, keys_text};
pub use keys_verdict::KeysVerdict;
pub use whole::{whole_reason, whole_thinned};
