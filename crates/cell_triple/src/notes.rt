//! What the seats of a triple buffer know. No value of these types is made.
use cell_contract::{Dated, Known, Sight, Times};
use std::collections::LinkedList;
use std::snapshot::Snapshot;

/// What the writer's seat knows.
pub struct WriterNotes<T> {
    pub opening: Snapshot<T>,
    pub slot: u64,
    /// 1 once the slot was taken.
    pub has: u64,
    pub written: LinkedList<T>,
    /// The swaps made with the pass.
    pub swaps: u64,
    /// Each write is its swap.
    pub times: Times,
}

/// What the reader's seat knows.
pub struct ReaderNotes<T> {
    pub opening: Snapshot<T>,
    pub slot: u64,
    pub has: u64,
    /// The record in the slot.
    pub at_hand: Snapshot<T>,
    /// The word that the last load found.
    pub found: u64,
    /// 1 from a load that found the mark to the swap.
    pub asked: u64,
    pub answers: LinkedList<T>,
    pub told: LinkedList<T>,
    /// The loads and the swaps made with the pass.
    pub loads: u64,
    pub swaps: u64,
    /// Each read is the step that decides it: its load, or its swap where the load found the mark.
    pub times: Times,
    /// The number of each answer, where the writes have the numbers 1, 2, .. and the opening has 0.
    pub numbers: LinkedList<u64>,
    /// The writes made when the last read ended.
    pub known: Known<T>,
    /// The writes of which each receipt told.
    pub heard: LinkedList<Known<T>>,
}

/// What a seat of this cell knows.
pub type TripleSight<T> = Sight<Dated<T>, WriterNotes<T>, ReaderNotes<T>>;
