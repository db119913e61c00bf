//! The calls of a pass in the time of their table, and what a reader and a receipt know of them. No
//! value of these types is made.
use std::collections::LinkedList;

/// The calls made with a pass: when each began and when it ended, and the last time of which the pass knows.
pub struct Times {
    pub begins: LinkedList<u64>,
    pub ends: LinkedList<u64>,
    pub clock: u64,
}

/// The writes of which a reader knows: their records, and when each began and ended. The last may be under way.
pub struct Known<T> {
    pub items: LinkedList<T>,
    pub times: Times,
}

/// What a receipt names: a record, a time at which it was written, and all the writes up to then.
pub struct Dated<T> {
    pub item: T,
    pub time: u64,
    pub writes: Known<T>,
}
