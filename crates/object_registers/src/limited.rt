ghost use Rattle.std.specs.Prelude.{◌≡◌, ◌↔◌, IsTrue, Option, Some};
ghost use Rattle.object_registers.specs.Registers.{limited_after};

use object_core::Object;

/// A register that takes a number of writes at least, and may refuse more of them.
#[derive(Clone, Copy, Debug, PartialEq, Eq)]
pub struct Limited {
    /// What the latest write left.
    pub held: u64,
    /// How many writes it still has to take.
    pub due: u64,
}

/// What is done to it.
#[derive(Clone, Copy, Debug, PartialEq, Eq)]
pub enum Access {
    /// A write of this record.
    Writes(u64),
    /// A read that gave this record.
    Reads(u64),
    /// A write that was refused, and saw this record.
    IsRefused(u64),
}

impl Object for Limited {
    type What = Access;

    ghost after = { limited_after };

    fn step(self, what: Access) -> Option<Self>
        ensures { result ≡ limited_after self what }
    {
        match what {
            Access::Writes(value) => Some(Limited {
                held: value,
                due: self.due.saturating_sub(1),
            }),
            Access::Reads(value) => if self.held == value { Some(self) } else { None },
            Access::IsRefused(value) => if self.held == value && self.due == 0 {
                Some(self)
            } else {
                None
            },
        }
    }

    /// Reads and refused writes, and no others.
    fn is_pure(what: Access) -> bool
        ensures pure { IsTrue result → (s t : Limited) → limited_after s what ≡ Some t → t ≡ s }
        ensures exact { ((s t : Limited) → limited_after s what ≡ Some t → t ≡ s) → IsTrue result }
    {
        match what {
            Access::Writes(_) => false,
            _ => true,
        }
    }

    fn is_same(what: Access, other: Access) -> bool
        ensures { IsTrue result → (s : Limited) → limited_after s what ≡ limited_after s other }
    {
        what == other
    }

    fn is(self, other: Self) -> bool
        ensures { IsTrue result ↔ (self ≡ other) }
    {
        self == other
    }
}
