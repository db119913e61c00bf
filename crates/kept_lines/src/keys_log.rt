use crate::lines_log::LinesLog;

/// What is kept of the log of one key.
#[derive(Drop)]
pub struct KeyLog {
    /// The key's text; none of the operations that have no key.
    pub key: Option<String>,
    /// The place in the whole log of each operation of this one.
    pub places: Vec<usize>,
    /// What is kept of it as of a log of its own.
    pub log: LinesLog,
}

/// What is kept of the log that lines stand for, whose operations have several keys. The operation at place p of it
/// stands on line p + 2.
#[derive(Drop)]
pub struct KeysLog {
    /// The log of each key, in the order of their first lines.
    pub logs: Vec<KeyLog>,
    /// Whether the last line says how many operations there are.
    pub ended: bool,
}
