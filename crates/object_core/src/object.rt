ghost use Rattle.std.specs.Prelude.{◌≡◌, ◌↔◌, IsTrue, Option, Some};

/// An object, by its states: a type of states with the step that each operation makes in one. What an operation does is
/// its input together with its answer, so a step is possible where the object may give that answer.
pub trait Object: Copy {
    /// What an operation does.
    type What: Copy;

    // The state after an operation in a state, or none where the object can't give the answer there.
    ghost after: { Self → Self.What → Option Self };

    /// The state after the operation.
    fn step(self, what: Self::What) -> Option<Self>
        ensures { result ≡ after self what };

    /// Whether the operation leaves every state as it is. `false` is always right.
    fn is_pure(what: Self::What) -> bool
        ensures { IsTrue result → (s t : Self) → after s what ≡ Some t → t ≡ s };

    /// Whether two operations make the same step in every state. `false` is always right.
    fn is_same(what: Self::What, other: Self::What) -> bool
        ensures { IsTrue result → (s : Self) → after s what ≡ after s other };

    /// Whether two states are the same.
    fn is(self, other: Self) -> bool
        ensures { IsTrue result ↔ (self ≡ other) };
}
