/// What is shown of a cell, in numbers.
#[derive(Clone, Copy, Debug, PartialEq, Eq)]
#[repr(C)]
pub struct Shown {
    /// The control bits.
    pub latest: u8,
    pub reading: u8,
    pub slot_zero: u8,
    pub slot_one: u8,
    /// The last event of each side, from 1 to 5: 5 before its first.
    pub write_event: u8,
    pub read_event: u8,
    /// The slot that the last W1 chose, and that of the reader's pair and index: 0 before the first.
    pub write_slot: u8,
    pub read_slot: u8,
    /// The answer of the last read that has ended: the number of a write, from 1 on, or 0 for the opening record.
    pub answer: u64,
}
