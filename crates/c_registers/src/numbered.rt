//! The record that lies in a cell.
ghost use Rattle.c_registers.specs.Numbers.{numbered, NumberFollows, follows_itself, follows_on};

use cell_contract::{Kept, Lawful, Lays};
use std::snapshot::Snapshot;

/// A record with its number: 0 is the opening, and each write has the next one.
#[derive(Clone, Copy)]
pub struct Numbered<W: Copy> {
    pub number: u64,
    pub words: W,
}

impl<W: Copy> Lawful for Numbered<W> {
    ghost fits = { λ _. Unit {0} };

    ghost rises = { λ a b. NumberFollows a.number a.words b.number b.words };

    ghost reflexive = { λ a. follows_itself a.number a.words };

    ghost transitive = { λ a b c. follows_on a.number a.words b.number b.words c.number c.words };
}

impl<W: Copy + Send + Sync> Kept for Numbered<W> {}

/// A record where C has it, and the number that it gets.
#[derive(Drop)]
pub struct Numbering<'a, W> {
    pub number: u64,
    pub words: &'a W,
}

impl<'a, W: Copy> Lays<Numbered<W>> for Numbering<'a, W> {
    ghost whole = { λ n. numbered n.number n.words.now };

    #[inline]
    fn name(&self) -> Snapshot<Numbered<W>> {
        Snapshot::of(&Numbered {
            number: self.number,
            words: *self.words,
        })
    }

    #[inline]
    fn lay(&self, place: &mut Numbered<W>) {
        place.number = self.number;
        place.words = *self.words;
    }
}
