/// Two values, one for each value of a bit.
#[derive(Clone, Copy, Debug, PartialEq, Eq)]
pub struct Sides<T> {
    pub zero: T,
    pub one: T,
}

/// A slot, by its pair and its index in the pair. Its number is `2 * pair + index`.
#[derive(Clone, Copy, Debug, PartialEq, Eq)]
pub struct Slot {
    pub pair: bool,
    pub index: bool,
}

/// An event of the writer.
#[derive(Clone, Copy, Debug, PartialEq, Eq)]
pub enum Stage {
    /// It loads `reading`, and so chooses its slot: the other pair, and there the index that `slot` doesn't name.
    W1,
    /// Its slot write begins.
    W2,
    /// Its slot write ends.
    W3,
    /// It stores its index in `slot` of its pair.
    W4,
    /// It stores its pair in `latest`.
    W5,
}

/// An event of the reader, without its answer.
#[derive(Clone, Copy, Debug, PartialEq, Eq)]
pub enum ReaderStage {
    /// It loads `latest`, which is its pair.
    R1,
    /// It stores its pair in `reading`.
    R2,
    /// It loads `slot` of its pair, which is its index.
    R3,
    /// Its slot read begins.
    R4,
    /// Its slot read ends, and the answer is given.
    R5,
}

/// An event of the reader; the last has the answer.
#[derive(Clone, Copy, Debug, PartialEq, Eq)]
pub enum ReadStage<R> {
    R1,
    R2,
    R3,
    R4,
    R5(R),
}

/// The four control bits.
#[derive(Clone, Copy, Debug, PartialEq, Eq)]
pub struct Bits {
    /// The pair of the last finished write.
    pub latest: bool,
    /// The pair that the reader announced last.
    pub reading: bool,
    /// For each pair the index of its newest slot.
    pub slot: [bool; 2],
}

/// The numbers of the slots whose accesses have begun and not ended.
#[derive(Clone, Copy, Debug, PartialEq, Eq)]
pub struct InSlot {
    pub writer: Option<u8>,
    pub reader: Option<u8>,
}

/// A state of a cell.
#[derive(Drop)]
pub struct State<R> {
    /// The answer of a slot read that has met a write.
    pub noise: R,
    pub latest: bool,
    pub reading: bool,
    pub slot: Sides<bool>,
    /// The records of the four slots, by pair and index.
    pub records: Sides<Sides<R>>,
    /// The writer's last event, W5 at first.
    pub writer: Stage,
    /// The slot that the last W1 chose, and the item that it took.
    pub write: Slot,
    pub item: R,
    /// The `slot` bits, as the writer remembers them.
    pub remembered: Sides<bool>,
    /// The reader's last event, R5 at first.
    pub reader: ReaderStage,
    /// The reader's pair since R1, and its index since R3.
    pub read: Slot,
    /// The slot that the last R3 chose.
    pub chosen: Option<Slot>,
    /// Whether the slot read in progress has met a write: the writer was in its slot at R4, or made W2 there since.
    pub met: bool,
}
