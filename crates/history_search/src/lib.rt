//! The search for a lawful order of a history in which each record is written once, after P. Gibbons and E. Korach,
//! Testing Shared Memories, 1997, with refused writes and a limit.
#![tactic(auto)]

mod cut;
mod find;
mod group;
mod group_search;
mod rank;
mod span;
mod turn;

pub use find::find_order;
