//! What is kept of a long log, and the answer about the whole log.
use crate::{History, Items, Reason};

/// The operations that are kept of a log, in the order of the log.
#[derive(Drop)]
pub struct Thinned {
    /// They, under one term. The opening is 0.
    pub history: History<usize>,
    /// The place of each of them in the log.
    pub places: Items<usize>,
}

impl Thinned {
    ghost use Rattle.std.specs.Prelude.{◌≡◌};
    ghost use Rattle.history_core.specs.Kept.{limit_of};

    /// The limit of the one term.
    pub fn limit(&self) -> u64
        ensures { result ≡ limit_of self.now }
    {
        match self.history.terms.as_slice().get(0) {
            Some(term) => term.limit,
            None => 1,
        }
    }
}

/// What a search answers about a whole log. Places are those in the log, counted from 0.
#[derive(Drop)]
pub enum LogAnswer {
    /// A lawful order exists. Its writes stand in this order, behind each the finished operations that
    /// have its record, by beginning.
    Lawful { writes: Items<usize> },
    /// No order is lawful.
    Unlawful { reason: Reason },
}
