//! Laws over the definitions of the answers to a log. No program stands on them.
#![tactic(auto)]

pub mod laws;
