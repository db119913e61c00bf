//! The history of a running board: where all its processes make their steps in one time, its calls are operations with
//! intervals, and their order by stamp is atomic.
#![tactic(auto)]

pub mod laws;
