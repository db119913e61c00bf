ghost use Rattle.std.specs.Prelude.{◌≡◌, ◌↔◌, cond, IsTrue, Option, None, Some};
ghost use Rattle.object_registers.specs.Registers.{limited_exchanging_after, written};

use crate::exchanging::Exchange;
use object_core::Object;

/// A register with compare-and-set that takes a number of writes at least, and may refuse more of them. A
/// compare-and-set that leaves its record is a write.
#[derive(Clone, Copy, Debug, PartialEq, Eq)]
pub struct LimitedExchanging {
    /// What the latest write left.
    pub held: u64,
    /// How many writes it still has to take.
    pub due: u64,
}

impl LimitedExchanging {
    /// Behind a write of this record.
    fn written(self, value: u64) -> LimitedExchanging
        ensures { result ≡ written self value }
    {
        LimitedExchanging {
            held: value,
            due: self.due.saturating_sub(1),
        }
    }

    /// As it is, if this holds.
    fn only_if(self, holds: bool) -> Option<LimitedExchanging>
        ensures { result ≡ cond holds (Some self) None }
    {
        if holds { Some(self) } else { None }
    }
}

impl Object for LimitedExchanging {
    type What = Exchange;

    ghost after = { limited_exchanging_after };

    fn step(self, what: Exchange) -> Option<Self>
        ensures { result ≡ limited_exchanging_after self what }
    {
        match what {
            Exchange::Sets(value) => Some(self.written(value)),
            Exchange::Gets(value) => self.only_if(self.held == value),
            Exchange::Swaps(from, to) => if self.held == from {
                Some(self.written(to))
            } else {
                None
            },
            Exchange::Misses(from) => self.only_if(self.held != from),
            Exchange::Finds(from, found) => self.only_if(self.held == found && from != found),
            Exchange::Tries(from, to) => Some(if self.held == from {
                self.written(to)
            } else {
                self
            }),
            Exchange::Refuses(value) => self.only_if(self.held == value && self.due == 0),
        }
    }

    /// Whatever writes nothing. A compare-and-set from a record to itself is a write.
    fn is_pure(what: Exchange) -> bool
        ensures pure { IsTrue result → (s t : LimitedExchanging) → limited_exchanging_after s what ≡ Some t → t ≡ s }
        ensures exact { ((s t : LimitedExchanging) → limited_exchanging_after s what ≡ Some t → t ≡ s) →
            IsTrue result }
    {
        match what {
            Exchange::Sets(_) => false,
            Exchange::Swaps(_, _) => false,
            Exchange::Tries(_, _) => false,
            _ => true,
        }
    }

    fn is_same(what: Exchange, other: Exchange) -> bool
        ensures { IsTrue result → (s : LimitedExchanging) → limited_exchanging_after s what
            ≡ limited_exchanging_after s other }
    {
        what == other
    }

    fn is(self, other: Self) -> bool
        ensures { IsTrue result ↔ (self ≡ other) }
    {
        self == other
    }
}
