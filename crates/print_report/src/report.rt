use four_slot_core::CellReport;
use history_core::{Band, Items};
use matrix_core::{BoardReport, MatrixReport};

/// What a played schedule or a race prints.
#[derive(Drop)]
pub enum Report {
    /// A played schedule of a four-slot register.
    Cell(CellReport<Band>),
    /// A played schedule of a matrix; where it is titled, a line stands before the operations of each term.
    Matrix {
        report: MatrixReport<Band>,
        titled: bool,
    },
    /// A played schedule of a composed board, likewise.
    Board {
        report: BoardReport<Band>,
        titled: bool,
    },
    /// What each task of a race did, and the task and the call of the first record that has no origin, if there is one.
    /// Tasks count from 0 and calls from 1.
    Race {
        tasks: Items<Counts>,
        broken: Option<(usize, usize)>,
    },
}

/// How many writes and reads a task made, and how many of its writes were refused.
#[derive(Clone, Copy, Debug, PartialEq, Eq)]
pub struct Counts {
    pub writes: u64,
    pub reads: u64,
    pub refused: u64,
}
