use history_core::Kind;

/// A slot access of a cell, from its beginning to its end.
#[derive(Clone, Copy, Debug, PartialEq, Eq)]
pub struct Visit {
    /// The lane of its cell; where each slot has its own lane, that of slot 0.
    pub lane: usize,
    pub slot: u8,
    pub kind: Kind,
    pub starts: u64,
    /// None where the access is not at its end.
    pub ends: Option<u64>,
}
