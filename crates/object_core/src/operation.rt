/// One operation of a log: the interval from its beginning to its end, and what it does.
#[derive(Clone, Copy, Debug, PartialEq, Eq)]
pub struct Operation<W> {
    /// The moment at which it began.
    pub starts: u64,
    /// The moment at which it ended; none while it is unfinished.
    pub ends: Option<u64>,
    /// Whether it may have done nothing. If it did something, it did so before its end.
    pub maybe: bool,
    pub what: W,
}
