//! A place at a board: a share of the board, and the pass of one process.
use board_live::{Board, Pass, Posted, RecordLaw};
use cell_contract::Family;
use std::alloc::Global;
use std::sync::Arc;

mod calls;
mod seats;

pub use seats::{HasPlace, open_places};

/// The right to call as one of the processes of a board.
#[derive(Drop)]
pub struct Place<V: RecordLaw, F: Family<Posted<V>>> {
    pub board: Arc<Board<V, F>, Global>,
    /// In a box, so that a place has one size, whatever its records have.
    pub pass: Box<Pass<V, F>>,
}
