//! Records of some words, with no law.
use cell_contract::{Kept, Lawful};

/// The words of a record.
pub trait Words: Copy {
    fn zero() -> Self;

    fn all(&self) -> &[u64];

    fn all_mut(&mut self) -> &mut [u64];
}

impl<const N: usize> Words for [u64; N] {
    fn zero() -> Self {
        [0; N]
    }

    fn all(&self) -> &[u64] {
        self
    }

    fn all_mut(&mut self) -> &mut [u64] {
        self
    }
}

/// Words that threads can share.
pub trait Shared: Words + Send + Sync {}

impl<const N: usize> Shared for [u64; N] {}

#[derive(Clone, Copy)]
pub struct Record<W> {
    words: W,
}

impl<W: Copy> Lawful for Record<W> {
    ghost fits = { λ _. Unit {0} };

    ghost rises = { λ _ _. Unit {0} };

    ghost reflexive = { λ _. tt };

    ghost transitive = { λ _ _ _ _ _. tt };
}

impl<W: Shared> Kept for Record<W> {}

impl<W: Words> Record<W> {
    pub fn zero() -> Record<W> {
        Record { words: W::zero() }
    }

    /// Puts the number into the first word and the last.
    pub fn mark(&mut self, number: u64) {
        let words = self.words.all_mut();
        if let Some(word) = words.first_mut() {
            *word = number;
        }
        if let Some(word) = words.last_mut() {
            *word = number;
        }
    }

    pub fn first(&self) -> u64 {
        self.words.all().first().copied().unwrap_or(0)
    }

    pub fn last(&self) -> u64 {
        self.words.all().last().copied().unwrap_or(0)
    }

    /// One of the first two words, as the number says: the whole record has to be there.
    pub fn word(&self, number: u64) -> u64 {
        match self.words.all().get((number % 2) as usize) {
            Some(word) => *word,
            None => 0,
        }
    }
}
