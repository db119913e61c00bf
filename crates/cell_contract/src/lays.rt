//! Records that are put together where they are to lie.
ghost use Rattle.std.specs.Prelude.{◌≡◌};

use std::snapshot::Snapshot;

/// The parts of a record. A write puts them together in its slot, so that each is copied once.
pub trait Lays<T: Copy> {
    // The record that the parts make.
    ghost whole: { Self → T };

    /// Names the record for contracts alone. What it copies is never read, so the compiler leaves it out.
    fn name(&self) -> Snapshot<T>
        ensures { result.value ≡ whole self.now };

    /// Puts the parts together in the place.
    fn lay(&self, place: &mut T)
        ensures { place.new ≡ whole self.now };
}

/// A record that lies somewhere whole.
#[derive(Drop)]
pub struct Whole<'a, T> {
    pub item: &'a T,
}

impl<'a, T: Copy> Lays<T> for Whole<'a, T> {
    ghost whole = { λ w. w.item.now };

    #[inline]
    fn name(&self) -> Snapshot<T> {
        Snapshot::of(self.item)
    }

    #[inline]
    fn lay(&self, place: &mut T) {
        *place = *self.item;
    }
}
