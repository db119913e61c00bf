/// What an operation does. Records stand as their texts: compact JSON.
#[derive(Drop)]
pub enum TextExchange {
    /// A write of this record.
    Sets(String),
    /// A read that gave this record, which an unfinished one need not have.
    Gets(Option<String>),
    /// A compare-and-set, which left the second record where it found the first.
    Swaps {
        from: String,
        to: String,
    },
    /// One that found another record than the first.
    Misses {
        from: String,
        to: String,
    },
    /// One that found this other record.
    Finds {
        from: String,
        to: String,
        found: String,
    },
    /// One of which isn't known what it did.
    Tries {
        from: String,
        to: String,
    },
    /// A write that was refused, and saw this record.
    Refuses(String),
}

/// An operation as its line has it.
#[derive(Drop)]
pub struct ExchangeOp {
    pub begin: u64,
    /// None where it is unfinished.
    pub end: Option<u64>,
    /// Whether it may have done nothing.
    pub maybe: bool,
    pub what: TextExchange,
    /// The text of what tells its register from others, if there is any.
    pub key: Option<String>,
}

/// A line behind the header.
#[derive(Drop)]
pub enum ExchangeLine {
    Operation(ExchangeOp),
    /// The end of the log, with the number of its operations.
    Done(usize),
}
