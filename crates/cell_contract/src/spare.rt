//! A value that clauses alone read, in a type that may cross threads.
ghost use Rattle.std.specs.Prelude.{◌≡◌};
ghost use base.Fml.{ftrue};

use std::marker::{Model, PhantomData};

/// A `T` as clauses see it, without its bytes: what a pass keeps of its cell's opening. It is what the kit calls a
/// `Snapshot`, but of a struct with a seat and a `Snapshot` the check doesn't find that it may cross threads.
pub struct Spare<T> {
    marker: PhantomData<T>,
    pub ghost value: { T },
}

impl<T> Model for Spare<T> {
    ghost also_owns = { λ _. ftrue };
}

impl<T> Spare<T> {
    /// What lies there.
    #[inline]
    pub fn of(x: &T) -> Spare<T>
        ensures { result.value ≡ x.now }
    {
        let _ = x;
        Spare {
            marker: PhantomData,
        }
    }

    /// The same once more.
    #[inline]
    pub fn again(&self) -> Spare<T>
        ensures { result.value ≡ self.now.value }
    {
        Spare {
            marker: PhantomData,
        }
    }
}

impl<T> Drop for Spare<T> {
    fn drop(self) {
        let Self { marker: _ } = self;
    }
}

unsafe impl<T> Send for Spare<T> {}
