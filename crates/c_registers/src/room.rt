//! What lends a value out of a struct that has a fact about it.
ghost use Rattle.std.specs.Prelude.{◌≡◌};

/// A value in a struct of its own.
#[derive(Drop)]
pub struct Room<T: Drop> {
    pub inner: T,
}

impl<T: Drop> Room<T> {
    ghost use Rattle.std.specs.Borrow.{sem, Lends};
    ghost use Rattle.c_registers.specs.contracts.room.Room.{the_row};

    #[inline]
    pub fn inside<'a>(&'a mut self) -> &'a mut T
        ensures* back { sem 𝓛 (Lends (the_row T.row) T.row self.entry result (λ x. record { inner = x })) }
        ensures value { result.now ≡ self.old.inner }
    {
        &mut self.inner
    }
}
