//! A place whose pass is the board's.
use crate::sits::Sits;

/// A place, and that its pass is the board's.
#[derive(Drop)]
pub struct Seated<S: Sits> {
    pub place: S,
    ghost own: { ∥ S.sits place ∥₁ },
}
