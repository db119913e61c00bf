//! What a search for a coherent order answers.
use history_core::Items;

/// Two operations of one task, by their places in the log, of which the earlier one stands first.
#[derive(Clone, Copy, Debug, PartialEq, Eq)]
pub struct Link {
    pub earlier: usize,
    pub later: usize,
}

/// Why no order is coherent. Places are those in the log, counted from 0.
#[derive(Drop)]
pub enum Incoherence {
    /// The record of this finished operation is neither the opening nor written.
    Unwritten { read: usize },
    /// The task has a record before it writes it.
    Ahead { read: usize, write: usize },
    /// Of each link the record of the earlier operation is written before that of the later one. Each ends with the
    /// record with which the next begins, the last one with that of the first; or it ends with the opening.
    Circle { links: Items<Link> },
}

/// What a search answers.
#[derive(Drop)]
pub enum Coherence {
    /// A coherent order.
    Coherent { order: Items<usize> },
    /// No order is coherent.
    Incoherent { reason: Incoherence },
}
