//! One theorem a product: what a cell, a board and the checker promise, each in one record, proved of a
//! function that makes the calls.
#![tactic(auto)]

pub mod boards;
pub mod cells;
pub mod checkers;
