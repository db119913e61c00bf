//! What the seats of a cell know, over the notes of the writer and those of the reader. No value of these types is
//! made. A record stands in them as a snapshot, since the size of a view's type must be known.
ghost use Rattle.cell_contract.specs.Sights.{writer_part, reader_part};

use atomic_table::Split;
use std::snapshot::Snapshot;

/// What a seat knows.
pub enum Sight<T, W, G> {
    Spent,
    Told(Snapshot<T>),
    Writer(W),
    Reader(G),
    Both(W, G),
}

/// The reader's notes are parted off.
pub struct Parts;

impl<T, W, G> Split<Sight<T, W, G>> for Parts {
    ghost left = { writer_part };

    ghost right = { reader_part };
}
