//! Records whose every word tells which write they are of.
ghost use Rattle.std.specs.Prelude.{◌≡◌, ℕ, ◌<◌, List, length};
ghost use Rattle.soak_rounds.specs.Records.{AreOf, IsWholeRecord};
ghost use Rattle.soak_rounds.specs.Records.{no_law};

use board_live::RecordLaw;
use cell_contract::{Kept, Lawful};

/// The words of a record.
pub trait Words: Copy + Eq {
    // The words, of which there are some.
    ghost listed: { Self → List ℕ };

    /// Words that are all this number.
    fn of(number: u64) -> Self
        ensures { IsWholeRecord (listed result) number };

    fn all(&self) -> &[u64]
        ensures listed { result.now ≡ listed self.now }
        ensures some { 0 < length result.now };
}

impl Words for [u64; 3] {
    ghost listed = { λ words. words };

    fn of(number: u64) -> Self {
        [number; 3]
    }

    fn all(&self) -> &[u64] {
        self
    }
}

impl Words for [u64; 32] {
    ghost listed = { λ words. words };

    fn of(number: u64) -> Self {
        [number; 32]
    }

    fn all(&self) -> &[u64] {
        self
    }
}

impl Words for [u64; 512] {
    ghost listed = { λ words. words };

    fn of(number: u64) -> Self {
        [number; 512]
    }

    fn all(&self) -> &[u64] {
        self
    }
}

/// Words that threads can share.
pub trait Shared: Words + Send + Sync {}

impl Shared for [u64; 3] {}

impl Shared for [u64; 32] {}

impl Shared for [u64; 512] {}

/// A record of one write, with no law.
#[derive(Clone, Copy, PartialEq, Eq)]
pub struct Record<W> {
    words: W,
}

impl<W: Words> Record<W> {
    /// The record of the write with this number.
    pub fn of(number: u64) -> Record<W>
        ensures { IsWholeRecord (W.listed result.words) number }
    {
        Record {
            words: W::of(number),
        }
    }

    /// The write that the record is of; none where it is torn: its words are of several writes.
    pub fn number(&self) -> Option<u64>
        ensures { AreOf (W.listed self.now.words) result }
    {
        let words = self.words.all();
        let first = words[0];
        if words.iter().all(|word| *word == first) {
            Some(first)
        } else {
            None
        }
    }
}

impl<W: Copy> Lawful for Record<W> {
    ghost fits = { λ _. Unit {0} };

    ghost rises = { λ _ _. Unit {0} };

    ghost reflexive = { λ _. tt };

    ghost transitive = { λ _ _ _ _ _. tt };
}

impl<W: Shared> Kept for Record<W> {}

impl<W: Words> RecordLaw for Record<W> {
    ghost obeys = { no_law };

    fn fits(&self) -> bool {
        true
    }
}
