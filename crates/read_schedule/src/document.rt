use four_slot_core::CellSchedule;
use history_core::{Band, Items, Wish};
use matrix_core::{BoardSchedule, MatrixSchedule};

/// What a document of a schedule stands for.
#[derive(Drop)]
pub enum ScheduleDocument {
    /// A schedule of a four-slot register.
    Cell(CellSchedule<Band>),
    /// A schedule of a matrix; titled where its terms stand under the key `terms`.
    Matrix {
        schedule: MatrixSchedule<Band>,
        titled: bool,
    },
    /// A schedule of a composed board, likewise.
    Board {
        schedule: BoardSchedule<Band>,
        titled: bool,
    },
}

/// What a document of kind `race` stands for: what each of several tasks is to do with one board, in this order.
#[derive(Drop)]
pub struct RaceDocument {
    pub opening: Band,
    pub limit: u64,
    pub scripts: Items<Items<Wish<Band>>>,
}
