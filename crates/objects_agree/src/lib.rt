//! The agreement of the two definitions of a lawful order, of a history and of a log of a register.
#![tactic(auto)]

pub mod laws;
