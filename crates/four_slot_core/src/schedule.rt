use history_core::{History, Items};

/// Whose step it is.
#[derive(Clone, Copy, Debug, PartialEq, Eq)]
pub enum Turn {
    Writer,
    Reader,
}

/// What a cell's writer and reader are to do, and in which order they make their steps. Each operation takes five steps
/// of its side, one for each event.
#[derive(Drop)]
pub struct CellSchedule<R> {
    /// The record of all four slots at first.
    pub opening: R,
    /// The answer of a read whose slot access meets a write of the same slot.
    pub noise: R,
    pub steps: Items<Turn>,
    /// The records of the writes, in their order.
    pub writes: Items<R>,
    /// How many reads there are.
    pub reads: u64,
}

/// A schedule that was played.
#[derive(Drop)]
pub struct CellReport<R> {
    /// The operations in order of beginning. The writer is actor 0 and the reader actor 1; there is one term.
    pub history: History<R>,
    /// The slot of each operation, `2 * pair + index`: a write's from W1 on, a read's from R3 on, none before.
    pub slots: Items<Option<u8>>,
    /// The places of the listed operations, in the order in which they count as done.
    pub order: Items<usize>,
}
