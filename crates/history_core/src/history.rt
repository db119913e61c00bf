use crate::Items;

/// What an operation did.
#[derive(Clone, Copy, Debug, PartialEq, Eq)]
pub enum Kind {
    /// It stored its item.
    Write,
    /// It answered its item.
    Read,
    /// It was to write and was refused; its item is what it saw last.
    Refused,
}

/// One operation: the interval from its beginning to its end.
#[derive(Clone, Copy, Debug, PartialEq, Eq)]
pub struct Op<R> {
    /// The actor.
    pub who: usize,
    pub kind: Kind,
    /// The moment at which it began.
    pub starts: u64,
    /// The moment at which it ended; none while it is unfinished.
    pub ends: Option<u64>,
    /// The record that it stored, answered or saw last; none where it has none yet.
    pub item: Option<R>,
}

/// A stretch of a history under one limit on the tags of its writes.
#[derive(Clone, Copy, Debug, PartialEq, Eq)]
pub struct Term {
    /// The place of its first operation.
    pub first: usize,
    /// The least number of writes of the term that stand before each refused write of it.
    pub limit: u64,
}

/// The operations on one register that held `opening` at first.
#[derive(Drop)]
pub struct History<R> {
    pub opening: R,
    pub terms: Items<Term>,
    pub ops: Items<Op<R>>,
}

/// What the check of an order answers: lawful, or the first rule that the order breaks.
#[derive(Clone, Copy, PartialEq, Eq)]
pub enum Verdict {
    Lawful,
    Listing,
    Precedence,
    Reading,
    Limit,
}
