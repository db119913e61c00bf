//! What a handle of C can have, and how a call reaches it.
ghost use Rattle.std.specs.Prelude.{◌≡◌, ◌≢◌, ℕ, Bool, true, false};
ghost use Rattle.std.specs.Borrow.{Lends, sem};

use std::alloc::Global;

/// A struct that has an `S`, and nothing else.
pub trait Wraps<S>: Sized + Drop {
    // What it has, and the struct with this in it.
    ghost inner: { Self → S };

    ghost side: { S → Self };

    /// Lends what it has.
    fn inside(&mut self) -> &mut S
        ensures* back { sem 𝓛 (Lends Self.row S.row self.entry result side) }
        ensures value { result.now ≡ inner self.old };

    fn whole(variant: S) -> Self
        ensures { result ≡ side variant };

    // It has nothing else.
    ghost whole_of: { (d : Self) → side (inner d) ≡ d };
}

/// Room for a box, or for nothing.
pub trait Holds<D>: Sized {
    // Whether there is a box, and what it has.
    ghost full: { Self → Bool };

    ghost side: { Self → D };

    // The room with this in its box.
    ghost having: { Self → D → Self };

    /// Lends what is in the box, where it lies.
    fn reach(&mut self) -> &mut D
        requires { full self.old ≡ true }
        ensures* lent { sem 𝓛 (Lends Self.row D.row self.entry result (having self.old)) }
        ensures value { result.now ≡ side self.old };

    // A box stays a box, and has what was put there.
    ghost stays: { (l : Self) (d : D) → full (having l d) ≡ full l };

    ghost has: { (l : Self) (d : D) → side (having l d) ≡ d };
}

/// A handle: it has a box where `live` is the number of its type.
pub trait Hand<D>: Sized {
    // The number of its type, which no other type has. It isn't 0, and it isn't that of a call that runs.
    ghost CODE: { ℕ };

    const CODE: u64;

    // 0 where it has nothing.
    ghost live: { Self → ℕ };

    ghost side: { Self → D };

    fn live(&self) -> u64
        ensures { result ≡ live self.now };

    /// Takes the box out for good.
    fn take(&mut self, alloc: Global) -> Box<D>
        requires { live self.old ≡ CODE }
        ensures { (live self.new ≡ 0) × (result.value ≡ side self.old) };

    /// Puts a box in.
    fn put(&mut self, boxed: Box<D>)
        requires { live self.old ≡ 0 }
        ensures { (live self.new ≡ CODE) × (side self.new ≡ boxed.value) };
}
