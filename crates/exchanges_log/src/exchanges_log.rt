use object_core::Operation;
use object_registers::Exchange;

/// The log that lines stand for whose records repeat. Records are numbers, and 0 is the opening.
#[derive(Drop)]
pub struct ExchangesLog {
    /// The operation at place p stands on line p + 2.
    pub ops: Vec<Operation<Exchange>>,
    /// How many writes stand before the first that may be refused; none where none is.
    pub limit: Option<u64>,
    /// How many of them have no end.
    pub unfinished: usize,
    /// How many of them have ended, and may have done nothing.
    pub uncertain: usize,
    /// How many records the lines name, the opening among them.
    pub records: usize,
    /// Whether the last line says how many operations there are.
    pub ended: bool,
}
