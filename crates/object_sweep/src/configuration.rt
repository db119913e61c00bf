ghost use Rattle.std.specs.Prelude.{◌≡◌};
ghost use Rattle.object_sweep.specs.Marks.{marks_of};

use crate::places::marks_of;

/// What orders of the operations so far have in common: where they leave the object, and which of those under way they
/// have placed.
#[derive(Drop)]
pub struct Configuration<O> {
    /// The state that the placed operations lead to.
    pub state: O,
    /// The places of those that are placed and haven't ended.
    pub placed: Vec<usize>,
    /// The marks of these places. Where they differ, the configurations do.
    pub(crate) marks: u64,
    ghost marked: { marks ≡ marks_of placed.items },
}

impl<O> Configuration<O> {
    ghost use Rattle.object_sweep.specs.inner.Steps.{IsMadeOf};

    pub(crate) fn new(state: O, placed: Vec<usize>) -> Configuration<O>
        ensures { IsMadeOf result state placed.items }
    {
        let marks = marks_of(placed.as_slice());
        Configuration {
            state,
            placed,
            marks,
        }
    }
}
