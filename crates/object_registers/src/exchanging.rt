ghost use Rattle.std.specs.Prelude.{◌≡◌, ◌↔◌, IsTrue, Option, Some};
ghost use Rattle.object_registers.specs.Registers.{exchanging_after};

use object_core::Object;

/// A register with compare-and-set, which may refuse any write.
#[derive(Clone, Copy, Debug, PartialEq, Eq)]
pub struct Exchanging {
    pub held: u64,
}

/// What is done to it. A compare-and-set asks for the record `from`, and leaves `to` where it finds that one.
#[derive(Clone, Copy, Debug, PartialEq, Eq)]
pub enum Exchange {
    /// A write of this record.
    Sets(u64),
    /// A read that gave this record.
    Gets(u64),
    /// A compare-and-set from the first record to the second, which it did.
    Swaps(u64, u64),
    /// A compare-and-set from this record, which found another one.
    Misses(u64),
    /// A compare-and-set from the first record, which found the second one, another one.
    Finds(u64, u64),
    /// A compare-and-set from the first record to the second; whether it did it isn't known.
    Tries(u64, u64),
    /// A write that was refused, and saw this record.
    Refuses(u64),
}

impl Object for Exchanging {
    type What = Exchange;

    ghost after = { exchanging_after };

    fn step(self, what: Exchange) -> Option<Self>
        ensures { result ≡ exchanging_after self what }
    {
        match what {
            Exchange::Sets(value) => Some(Exchanging { held: value }),
            Exchange::Gets(value) => if self.held == value { Some(self) } else { None },
            Exchange::Swaps(from, to) => if self.held == from {
                Some(Exchanging { held: to })
            } else {
                None
            },
            Exchange::Misses(from) => if self.held == from { None } else { Some(self) },
            Exchange::Finds(from, found) => if self.held == found && from != found {
                Some(self)
            } else {
                None
            },
            Exchange::Tries(from, to) => Some(if self.held == from {
                Exchanging { held: to }
            } else {
                self
            }),
            Exchange::Refuses(value) => if self.held == value { Some(self) } else { None },
        }
    }

    /// Whatever leaves each record as it is: also a compare-and-set from a record to itself.
    fn is_pure(what: Exchange) -> bool
        ensures pure { IsTrue result → (s t : Exchanging) → exchanging_after s what ≡ Some t → t ≡ s }
        ensures exact { ((s t : Exchanging) → exchanging_after s what ≡ Some t → t ≡ s) → IsTrue result }
    {
        match what {
            Exchange::Sets(_) => false,
            Exchange::Swaps(from, to) => from == to,
            Exchange::Tries(from, to) => from == to,
            _ => true,
        }
    }

    fn is_same(what: Exchange, other: Exchange) -> bool
        ensures { IsTrue result → (s : Exchanging) → exchanging_after s what ≡ exchanging_after s other }
    {
        what == other
    }

    fn is(self, other: Self) -> bool
        ensures { IsTrue result ↔ (self ≡ other) }
    {
        self == other
    }
}
