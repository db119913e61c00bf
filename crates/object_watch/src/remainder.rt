use object_core::Operation;

/// What the orders so far have in common that leave the same: where they leave the object, and the operations that are
/// still to be placed.
#[derive(Drop)]
pub struct Remainder<O, W> {
    /// The state that the placed operations lead to.
    pub state: O,
    /// Those that are known and aren't placed, in the order in which they came.
    pub rest: Vec<Operation<W>>,
}
