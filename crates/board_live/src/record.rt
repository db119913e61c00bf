//! Records that several processes share, with the stamps under which they were written.
ghost use Rattle.std.specs.Prelude.{◌≡◌, Bool, IsTrue};

use cell_contract::{Kept, Lawful, Planned, Sees};
use history_core::Band;
use matrix_core::Stamp;

/// A type of records with a law that a caller can test.
pub trait RecordLaw: Copy + Eq {
    // Whether a record obeys its law.
    ghost obeys: { Self → Bool };

    /// Whether the record obeys its law.
    fn fits(&self) -> bool
        ensures { result ≡ obeys self.now };
}

/// A record with the stamp of its write. The opening has the stamp 0.0.
#[derive(Clone, Copy, Debug, PartialEq, Eq)]
pub struct Posted<V> {
    pub stamp: Stamp,
    pub item: V,
}

impl<V: Copy> Posted<V> {
    ghost use Rattle.board_live.specs.declared.record.Posted.{Posted};
    ghost use Rattle.board_live.specs.Records.{greater, or_item};

    /// Takes the other where its stamp is greater.
    #[inline]
    pub(crate) fn raise(&mut self, other: &Posted<V>)
        ensures { self.new ≡ greater self.old other.now }
    {
        if self.stamp < other.stamp {
            *self = *other;
        }
    }

    /// Takes the item under this stamp, where there is one.
    #[inline]
    pub(crate) fn renew(&mut self, stamp: Option<Stamp>, item: V)
        ensures { self.new ≡ or_item self.old stamp item }
    {
        if let Some(stamp) = stamp {
            self.stamp = stamp;
            self.item = item;
        }
    }
}

impl RecordLaw for Band {
    ghost use Rattle.history_core.specs.Band.{fits};

    ghost obeys = { fits };

    fn fits(&self) -> bool {
        Band::fits(self)
    }
}

impl<V: RecordLaw> Lawful for Posted<V> {
    ghost use Rattle.board_live.specs.Records.{Rises, rises_itself, rises_on};

    ghost fits = { λ p. IsTrue (V.obeys p.item) };

    ghost rises = { Rises };

    ghost reflexive = { rises_itself };

    ghost transitive = { rises_on };
}

/// A process of a board makes calls, at any moment as far as it has come.
impl<V: RecordLaw> Planned for Posted<V> {
    ghost use Rattle.board_live.specs.Plans.{MakesCalls};

    ghost plan = { MakesCalls };
}

/// Of the records that it sees it becomes the greatest.
impl<V: RecordLaw> Sees<Posted<V>> for Posted<V> {
    ghost use Rattle.board_live.specs.Records.{greater};

    ghost sees = { λ old item new. new ≡ greater old item };

    #[inline]
    fn see(&mut self, item: &Posted<V>) {
        self.raise(item);
    }
}

impl<V: RecordLaw + Send + Sync> Kept for Posted<V> {}
