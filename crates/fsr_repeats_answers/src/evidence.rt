//! What shows that a log whose records repeat is lost.
ghost use Rattle.std.specs.Prelude.{IfOk};
ghost use Rattle.fsr_repeats_answers.specs.Evidence.{IsEvidence};

use object_core::Operation;
use object_registers::Exchange;
use object_sources::{Unsourced, unsourced_at};
use object_window::{Window, find_window};
use std::alloc::{AllocError, Global};

/// The number of the opening.
pub(crate) const OPENING: u64 = 0;

/// What shows that a log is lost.
#[derive(Debug, Drop)]
pub enum Evidence {
    /// Why the operation at whose end it is lost can't have found its record.
    NoSource(Unsourced),
    /// No order of few operations is lawful.
    Together(Window),
    /// A short search finds nothing.
    Nothing,
}

/// What shows that a log is lost at the end of the operation at a place.
pub(crate) fn evidence_at(
    alloc: Global,
    log: &[Operation<Exchange>],
    place: usize,
) -> Result<Evidence, AllocError>
    ensures { IfOk result (IsEvidence log.now place) }
{
    if let Some(why) = unsourced_at(OPENING, log, place) {
        return Ok(Evidence::NoSource(why));
    }
    match find_window(alloc, log, place)? {
        Some(window) => Ok(Evidence::Together(window)),
        None => Ok(Evidence::Nothing),
    }
}
