use history_core::Op;

/// The log that lines stand for. Records are numbers, and 0 is the opening.
#[derive(Drop)]
pub struct WholeLog {
    /// The operation at place p stands on line p + 2.
    pub ops: Vec<Op<usize>>,
    /// How many of them are unfinished.
    pub unfinished: usize,
    /// How many records there are, the opening among them.
    pub records: usize,
    /// How many of them a finished read gave, the opening not counted.
    pub read: usize,
    /// Whether the last line says how many operations there are.
    pub ended: bool,
}
