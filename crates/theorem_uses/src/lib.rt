//! What may be concluded from the theorems: laws and callers that use nothing but the public words of contracts,
//! and end in an exact value or in a contradiction. A part of such a word has a law here that fails without it, so
//! that it can't be emptied unseen.
//!
//! Some of them say what the one time of a board's calls buys its callers: a receipt passes on all that its sender
//! knew, also through a process that has read nothing, and a read that begins after it gives no older record.
#![tactic(auto)]

pub mod boards;
pub mod cells;
pub mod composed;
pub mod dealt;
mod ends;
pub mod going;
pub mod handles;
pub mod heard;
pub mod learnt;
pub mod left;
pub mod lent;
pub mod logs;
pub mod lost;
pub mod makes;
pub mod mechanisms;
pub mod noted;
pub mod orders;
pub mod parts;
mod passing;
pub mod products;
pub mod reads;
pub mod reasons;
pub mod reports;
mod running;
pub mod runs;
mod terms;

pub use ends::{ends_no_older, gives_back};
pub use passing::{pass_on, pass_twice};
pub use running::{answers_written, turn_of_four};
pub use terms::{renew_after, terms_join};
