//! What a search for a lawful order of a history answers: an order, or a reason why none is lawful, after P. Gibbons
//! and E. Korach, Testing Shared Memories, 1997.
use crate::Items;

/// Why no order is lawful. Places are those of the operations, counted from 0.
#[derive(Clone, Copy, PartialEq, Eq)]
pub enum Reason {
    /// The record of this finished read or refused write is neither the opening nor written.
    Unwritten {
        read: usize,
    },
    /// The read or refused write precedes the write of its record.
    Early {
        read: usize,
        write: usize,
    },
    /// The read or refused write gave the opening, and an operation of another record precedes it.
    Stale {
        before: usize,
        read: usize,
    },
    /// a precedes b, and c precedes d; a and d are of one record, b and c of another.
    Crossed {
        a: usize,
        b: usize,
        c: usize,
        d: usize,
    },
    /// In each order that keeps the other rules this refused write, or one before it, has fewer
    /// writes before it than the limit.
    Limit {
        refused: usize,
    },
}

/// What a search answers.
#[derive(Drop)]
pub enum Search {
    /// A lawful order.
    Order(Items<usize>),
    /// No order is lawful.
    Unlawful(Reason),
}

/// Why a history isn't searched. Of the conditions the first that fails is told, at the least place; of the last
/// two the least place decides.
#[derive(Clone, Copy, PartialEq, Eq)]
pub enum SearchError {
    NoMemory,
    /// The history hasn't one term that begins with its first operation.
    Terms,
    /// The operation at this place ends before it begins.
    Backwards { place: usize },
    /// The operation at this place writes the opening.
    WritesOpening { place: usize },
    /// The write at the second place has the record of the one at the first.
    WritesTwice { first: usize, second: usize },
}
