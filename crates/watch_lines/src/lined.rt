ghost use Rattle.std.specs.Prelude.{◌≡◌, ◌↔◌, IsTrue, Option, Some};
ghost use Rattle.watch_lines.specs.Lined.{lined_after};

use object_core::Object;
use object_registers::{Exchange, Exchanging};

/// What an operation did, and the line that it stands on.
#[derive(Clone, Copy, Debug, PartialEq, Eq)]
pub struct Lined {
    pub what: Exchange,
    pub line: usize,
}

/// A register with compare-and-set, whose operations know their lines.
#[derive(Clone, Copy, Debug, PartialEq, Eq)]
pub struct LinedRegister {
    pub register: Exchanging,
}

impl Object for LinedRegister {
    type What = Lined;

    ghost after = { lined_after };

    fn step(self, what: Lined) -> Option<Self>
        ensures { result ≡ lined_after self what }
    {
        match self.register.step(what.what) {
            Some(register) => Some(LinedRegister { register }),
            None => None,
        }
    }

    fn is_pure(what: Lined) -> bool
        ensures { IsTrue result → (s t : LinedRegister) → lined_after s what ≡ Some t → t ≡ s }
    {
        Exchanging::is_pure(what.what)
    }

    /// Whatever their lines are.
    fn is_same(what: Lined, other: Lined) -> bool
        ensures { IsTrue result → (s : LinedRegister) → lined_after s what ≡ lined_after s other }
    {
        Exchanging::is_same(what.what, other.what)
    }

    fn is(self, other: Self) -> bool
        ensures { IsTrue result ↔ (self ≡ other) }
    {
        self == other
    }
}
