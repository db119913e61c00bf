//! The next bytes of the input.
ghost use Rattle.program_streams.specs.Stream.{HasRoom};
ghost use Rattle.program_streams.specs.Transfer.{CountsFailure};
ghost use Rattle.fsr_watch_answers.specs.Pieces.{AddsPiece};

use program_streams::{Failed, InputFault, Source};
use std::alloc::AllocError;

/// How many bytes of the input are asked for at once.
const CHUNK: usize = 4096;

/// Adds what has come of the input, as soon as some has. The count is 0 at the end alone.
pub(crate) fn take_piece<I: Source>(input: &mut I, bytes: &mut Vec<u8>) -> Result<usize, InputFault>
    requires { HasRoom (I.failed input.old) }
    ensures taken { AddsPiece (I.remaining input.old) (I.remaining input.new) bytes.old.items bytes.new.items result }
    ensures counts { CountsFailure (I.failed input.old) (I.failed input.new) result }
{
    let mut chunk = [0u8; CHUNK];
    match input.take(&mut chunk[..]) {
        Ok(count) => match bytes.extend_from_slice(&chunk[..count]) {
            Ok(()) => Ok(count),
            Err(AllocError) => Err(InputFault::NoMemory),
        },
        Err(Failed) => Err(InputFault::Failed),
    }
}
