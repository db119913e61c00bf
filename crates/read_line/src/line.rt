use history_core::Kind;

/// An operation as its line has it. A record stands as its text: compact JSON.
#[derive(Drop)]
pub struct LineOp {
    pub who: usize,
    pub kind: Kind,
    pub begin: u64,
    /// None where it is unfinished.
    pub end: Option<u64>,
    pub record: Option<String>,
    /// The text of what tells its register from others, if there is any.
    pub key: Option<String>,
}

/// A line behind the header.
#[derive(Drop)]
pub enum LogLine {
    Operation(LineOp),
    /// The end of the log, with the number of its operations.
    Done(usize),
}

/// The first line of a log.
#[derive(Drop)]
pub struct LogHeader {
    pub opening: String,
    /// None where no write is refused.
    pub limit: Option<u64>,
}
