//! What `fsr` answers to a log in lines of any number of keys whose records are written once: the verdict key by key,
//! or the small log that shows the reason.
#![tactic(auto)]

mod by_keys;
mod keys_answer;
mod keys_small;
mod keys_verdict;
mod small_answer;

pub use by_keys::order_by_keys;
pub use keys_answer::order_keys;
pub use small_answer::order_small;
