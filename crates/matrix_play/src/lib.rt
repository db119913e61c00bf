//! The matrix of atomic cells, each event one whole access of a cell, and the player of its schedules.
#![tactic(auto)]

pub mod laws;
mod matrix;
mod matrix_report;
mod matrix_term;

pub use matrix::{MatrixCore, MatrixStage};
pub use matrix_report::play_matrix;
