//! The input, a piece after the other.
ghost use Rattle.program_streams.specs.Stream.{Counts, HasRoom};
ghost use Rattle.std.specs.Prelude.{◌≡◌};
ghost use Rattle.fsr_watch_answers.specs.Runs.{WatchesInput};

use crate::lines::{Coming, watch_last, watch_long, watch_whole};
use crate::piece::take_piece;
use program_runs::Fault;
use program_streams::{Failed, InputFault, Source};
use std::alloc::Global;
use watch_lines::{Told, WatchFault};

/// The greatest number of bytes of a line.
const MAX_LINE: usize = 1_048_576;

/// Watches the log that the input has, and tells the line at which it is lost, or is at fault, as soon as that line has
/// come; else what is to be told at the end.
pub fn watch_input<I: Source>(
    alloc: Global,
    budget: usize,
    input: &mut I,
) -> Result<Result<Told, WatchFault>, Failed>
    requires { HasRoom (I.failed input.old) }
    ensures watches { WatchesInput (I.remaining input.old) (I.remaining input.new) result }
    ensures counts { Counts (I.failed input.old) (I.failed input.new) result }
{
    let mut read = None;
    let mut bytes = Vec::new(alloc);
    'pieces: for _ in 0..u64::MAX {
        match take_piece(input, &mut bytes) {
            Ok(0) => return Ok(watch_last(alloc, budget, read, bytes.as_slice())),
            Ok(_) => {}
            Err(InputFault::NoMemory) => return Ok(Err(WatchFault::Refused(Fault::NoMemory))),
            Err(InputFault::Failed) => return Err(Failed),
        }
        read = match watch_whole(alloc, budget, read, &mut bytes) {
            Coming::GoesOn(read) => read,
            Coming::Stops(reply) => return Ok(reply),
        };
        if MAX_LINE < bytes.len() {
            return Ok(watch_long(alloc, budget, read, bytes.as_slice()));
        }
    }
    // (no run takes so many pieces)
    Ok(Err(WatchFault::Refused(Fault::NoMemory)))
}
