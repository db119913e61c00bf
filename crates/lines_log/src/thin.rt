//! How operations are kept.
ghost use Rattle.std.specs.Prelude.{◌≡◌, ◌+◌, ◌<◌, ◌^◌, ◌++◌, ◌∷◌, [], ℕ, List, true, length, if◌then◌else◌};
ghost use Rattle.std.specs.Prelude.{is_none, IfErr, IsSome, OnOk};
ghost use Rattle.history_core.specs.declared.history.Op.{Op};
ghost use Rattle.history_core.specs.Reasons.{counts};
ghost use Rattle.history_thinning.specs.inner.Kept.{IsThinning};
ghost use Rattle.lines_log.specs.inner.Readings.{IsEntryFault};

use crate::faults::told_of;
use history_core::Op;
use history_thinning::Thinner;
use program_runs::Fault;

/// Enters the operation at a place.
pub(crate) fn thin(thinner: &mut Thinner, op: Op<usize>, place: usize) -> Result<(), Fault>
    requires { counts op ≡ true → IsSome op.item }
    ensures entered { OnOk result ((log : List (Op ℕ)) → length log ≡ place → IsThinning log thinner.old →
        IsThinning (log ++ op ∷ []) thinner.new) }
    ensures fault { IfErr result (λ fault. (log : List (Op ℕ)) → length log ≡ place → IsThinning log thinner.old →
        IsEntryFault (log ++ op ∷ []) fault) }
{
    match thinner.enter(op, place) {
        Ok(()) => Ok(()),
        Err(error) => Err(told_of(error)),
    }
}

/// One more where it has no end.
pub(crate) fn with_unfinished(unfinished: usize, end: Option<u64>) -> usize
    requires { unfinished + 1 < 2 ^ 64 }
    ensures { result ≡ unfinished + (if is_none end then 1 else 0) }
{
    if end.is_none() {
        unfinished + 1
    } else {
        unfinished
    }
}
