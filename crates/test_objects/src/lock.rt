ghost use Rattle.std.specs.Prelude.{◌≡◌, ◌↔◌, IsTrue, Option, Some};
ghost use Rattle.test_objects.specs.Locks.{lock_after};

use object_core::Object;

/// A lock, by who holds it.
#[derive(Clone, Copy, Debug, PartialEq, Eq)]
pub struct Lock {
    pub holder: Option<u64>,
}

/// What is done to it.
#[derive(Clone, Copy, Debug, PartialEq, Eq)]
pub enum Turn {
    /// This one took it.
    Took(u64),
    /// A try found it taken.
    Failed,
    /// This one let it go.
    LetGo(u64),
}

impl Object for Lock {
    type What = Turn;

    ghost after = { lock_after };

    fn step(self, what: Turn) -> Option<Self>
        ensures { result ≡ lock_after self what }
    {
        match (what, self.holder) {
            (Turn::Took(who), None) => Some(Lock { holder: Some(who) }),
            (Turn::Failed, Some(_)) => Some(self),
            (Turn::LetGo(who), Some(holder)) => if holder == who {
                Some(Lock { holder: None })
            } else {
                None
            },
            _ => None,
        }
    }

    fn is_pure(what: Turn) -> bool
        ensures pure { IsTrue result → (s t : Lock) → lock_after s what ≡ Some t → t ≡ s }
        ensures exact { ((s t : Lock) → lock_after s what ≡ Some t → t ≡ s) → IsTrue result }
    {
        match what {
            Turn::Failed => true,
            Turn::Took(_) => false,
            Turn::LetGo(_) => false,
        }
    }

    fn is_same(what: Turn, other: Turn) -> bool
        ensures { IsTrue result → (s : Lock) → lock_after s what ≡ lock_after s other }
    {
        what == other
    }

    fn is(self, other: Self) -> bool
        ensures { IsTrue result ↔ (self ≡ other) }
    {
        self == other
    }
}
