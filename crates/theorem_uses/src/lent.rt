//! What a status through C says of words that were filled in place.
ghost use Rattle.theorem_uses.specs.Lent.{FillingsShow, NextShows, PublishesShow};

/// A write of a triple buffer that was made is the next one of the register.
pub fn next_writes_show<W>()
    ensures { NextShows W }
{}

/// A publish with status 0 wrote the words in the slot, and with any other status nothing was written.
pub fn publishes_show<D, W>()
    ensures { PublishesShow D W }
{}

/// The words that a slot was filled with are those that the next publish writes.
pub fn fillings_show<D, W>()
    ensures { FillingsShow D W }
{}
