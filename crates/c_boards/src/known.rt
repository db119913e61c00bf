//! What a place keeps of its pass.
use crate::sits::Sits;

/// That the pass is the board's may be used where a place keeps it without its proof.
pub(crate) fn known<S: Sits>(place: &S)
    requires { ∥ S.sits place.now ∥₁ }
    ensures { S.sits place.now }
{}
