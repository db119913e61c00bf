use history_core::Thinned;

/// What is kept of the log that lines stand for. The operation at place p of the log stands on line p + 2.
#[derive(Drop)]
pub struct LinesLog {
    /// At most four operations of each record. Records are numbers, and 0 is the opening.
    pub thinned: Thinned,
    /// How many operations there are.
    pub ops: usize,
    /// How many of them are unfinished.
    pub unfinished: usize,
    /// How many records there are, the opening among them.
    pub records: usize,
    /// How many of them a finished read gave, the opening not counted.
    pub read: usize,
    /// Whether the last line says how many operations there are.
    pub ended: bool,
}
