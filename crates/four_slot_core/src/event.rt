use std::snapshot::Snapshot;

/// An event of the writer, with the item that it takes at W1. No value of this type is made:
/// contracts have lists of them.
pub enum WriteEvent<R> {
    W1(Snapshot<R>),
    W2,
    W3,
    W4,
    W5,
}

/// An event of the reader, with the answer that it gives at R5. No value of this type is made:
/// contracts have lists of them.
pub enum ReadEvent<R> {
    R1,
    R2,
    R3,
    R4,
    R5(Snapshot<R>),
}
