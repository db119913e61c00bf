ghost use Rattle.std.specs.Prelude.{◌≡◌, ◌<◌, ◌≤◌, ◌+◌, List, ℕ, length, OnOk, OnErr};
ghost use Rattle.std.specs.Io.{StartsWith};
ghost use Rattle.std.specs.Io.KnownBytes.{Appends};
ghost use Rattle.program_streams.specs.Stream.{Counts, HasRoom};
ghost use Rattle.program_streams.specs.Transfer.{CountsFailure, TakesInput, TakesMore, TakesPiece};
ghost use Rattle.program_streams.specs.Transfer.{TakesUpTo, TellsLine};

use crate::stream::{Failed, Sink, Source};
use std::alloc::{AllocError, Global};

/// One byte more than the longest document has.
const MOST_TAKEN: usize = 1_048_577;

/// How many bytes of the input are asked for at once.
const CHUNK: usize = 4096;

/// Why the input was not read.
#[derive(Clone, Copy)]
pub enum InputFault {
    Failed,
    NoMemory,
}

/// Reads the input to its end, or as far as a run reads a document.
pub fn read_input<I: Source>(alloc: Global, input: &mut I) -> Result<Vec<u8>, InputFault>
    requires { HasRoom (I.failed input.old) }
    ensures taken { TakesInput (I.remaining input.old) (I.remaining input.new) result }
    ensures counts { CountsFailure (I.failed input.old) (I.failed input.new) result }
{
    let mut bytes = Vec::new(alloc);
    match read_up_to(input, &mut bytes, MOST_TAKEN) {
        Ok(()) => Ok(bytes),
        Err(fault) => Err(fault),
    }
}

/// Puts the next piece of the input, as long as the longest that a run reads of a document, in the place of what the
/// bytes are, and says whether it is whole. Otherwise the input is at its end.
pub fn read_piece<I: Source>(input: &mut I, bytes: &mut Vec<u8>) -> Result<bool, InputFault>
    requires { HasRoom (I.failed input.old) }
    ensures taken { TakesPiece (I.remaining input.old) (I.remaining input.new) bytes.new.items result }
    ensures counts { CountsFailure (I.failed input.old) (I.failed input.new) result }
{
    bytes.clear();
    match read_up_to(input, bytes, MOST_TAKEN) {
        Ok(()) => Ok(bytes.len() == MOST_TAKEN),
        Err(fault) => Err(fault),
    }
}

/// Adds the next bytes of the input, up to its end or until there are so many.
fn read_up_to<I: Source>(input: &mut I, bytes: &mut Vec<u8>, most: usize) -> Result<(), InputFault>
    requires { HasRoom (I.failed input.old) }
    ensures taken { TakesUpTo most (I.remaining input.old)
        (I.remaining input.new) bytes.old.items bytes.new.items result }
    ensures counts { CountsFailure (I.failed input.old) (I.failed input.new) result }
{
    'input: while bytes.len() < most {
        match take_more(input, bytes, most) {
            Ok(0) => break,
            Ok(_) => {}
            Err(fault) => return Err(fault),
        }
    }
    Ok(())
}

/// Takes the next piece of the input, and adds it to the bytes, of which there are no more than so many then. The
/// count is 0 at the end alone.
fn take_more<I: Source>(
    input: &mut I,
    bytes: &mut Vec<u8>,
    most: usize,
) -> Result<usize, InputFault>
    requires room { HasRoom (I.failed input.old) }
    requires short { length bytes.old.items < most }
    ensures more { TakesMore most (I.remaining input.old)
        (I.remaining input.new) bytes.old.items bytes.new.items result }
    ensures counts { CountsFailure (I.failed input.old) (I.failed input.new) result }
{
    let mut chunk = [0u8; CHUNK];
    let room = (most - bytes.len()).min(CHUNK);
    match input.take(&mut chunk[..room]) {
        Ok(count) => match bytes.extend_from_slice(&chunk[..count]) {
            Ok(()) => Ok(count),
            Err(AllocError) => Err(InputFault::NoMemory),
        },
        Err(Failed) => Err(InputFault::Failed),
    }
}

/// Writes all of the bytes, piece by piece.
pub fn write_text<O: Sink>(out: &mut O, text: &[u8]) -> Result<(), Failed>
    requires { HasRoom (O.failed out.old) }
    ensures ok { OnOk result (Appends (O.contents out.old) (O.contents out.new) text.now) }
    ensures err { OnErr result ((sent : List ℕ) × StartsWith text.now sent
        × Appends (O.contents out.old) (O.contents out.new) sent) }
    ensures counts { Counts (O.failed out.old) (O.failed out.new) result }
{
    let mut done = 0;
    'pieces: while done < text.len() {
        match out.put(&text[done..]) {
            Ok(n) => done += n,
            Err(failed) => return Err(failed),
        }
    }
    Ok(())
}

/// Tells a line. A failure changes nothing else.
pub fn tell<E: Sink>(faults: &mut E, line: &str)
    requires { HasRoom (E.failed faults.old) }
    ensures told { TellsLine (E.contents faults.old) (E.contents faults.new) (E.failed faults.old)
        (E.failed faults.new) line.now }
    ensures once { E.failed faults.new ≤ E.failed faults.old + 1 }
{
    let _ = write_text(faults, line.as_bytes());
}
