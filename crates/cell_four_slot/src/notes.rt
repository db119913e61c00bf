//! What the seats of a four-slot cell know. No value of these types is made.
use cell_contract::{Dated, Known, Sight, Times};
use four_slot_core::{ReadEvent, ReaderStage, Sides, Slot, Stage, WriteEvent};
use std::collections::LinkedList;
use std::snapshot::Snapshot;

/// What the writer's seat knows.
pub struct WriterNotes<T> {
    /// The last event: W5 between two writes.
    pub stage: Stage,
    /// The slot that the last W1 chose, and the item that it took.
    pub slot: Slot,
    pub item: Snapshot<T>,
    /// The pairs' bits, as the writer remembers them.
    pub remembered: Sides<bool>,
    /// The pair that the last W5 stored, which `latest` has.
    pub latest: bool,
    /// The record of the last finished write.
    pub finished: Snapshot<T>,
    pub opening: Snapshot<T>,
    pub written: LinkedList<T>,
    /// The slot of each write, beside its record.
    pub slots: LinkedList<Slot>,
    pub events: LinkedList<WriteEvent<T>>,
    /// The control accesses made.
    pub accesses: u64,
    /// Each write from W1 to W5.
    pub times: Times,
}

/// What the reader's seat knows.
pub struct ReaderNotes<T> {
    /// The last event: R5 between two reads.
    pub stage: ReaderStage,
    /// The pair of the last R1 and the index of the last R3.
    pub slot: Slot,
    /// The slot that the last R3 chose. The seat has it until the next R2.
    pub chosen: Option<Slot>,
    /// The record with which that slot came.
    pub at_hand: Snapshot<T>,
    pub opening: Snapshot<T>,
    pub answers: LinkedList<T>,
    pub told: LinkedList<T>,
    pub events: LinkedList<ReadEvent<T>>,
    /// The control accesses made.
    pub accesses: u64,
    /// Each read from R1 to R3.
    pub times: Times,
    /// The number of each answer, where the writes have the numbers 1, 2, .. and the opening has 0.
    pub numbers: LinkedList<u64>,
    /// The writes that had begun when the last read ended.
    pub known: Known<T>,
    /// The writes of which each receipt told.
    pub heard: LinkedList<Known<T>>,
}

/// What a seat of this cell knows.
pub type FourSlotSight<T> = Sight<Dated<T>, WriterNotes<T>, ReaderNotes<T>>;
