//! The input of the command `order`, as it is taken.
ghost use Rattle.std.specs.Prelude.{◌≡◌, ◌&&◌, not};
ghost use Rattle.fsr_order_input.specs.Inputs.{TakesLog};
ghost use Rattle.fsr_order_input.specs.inner.Inputs.{PacksPiece, PacksRest, TakesBehind, TakesLines};
ghost use Rattle.text_lines.specs.Words.{text_in};
ghost use Rattle.program_runs.specs.Run.{CountsTaking, TellsUnlessTaken};
ghost use Rattle.program_streams.specs.Spaces.{ends_in_space};
ghost use Rattle.program_streams.specs.Stream.{HasRoom};
ghost use Rattle.program_streams.specs.Transfer.{CountsFailure};
ghost use Rattle.fsr_order_input.specs.Kinds.{are_lines};

use crate::kinds::are_lines;
use crate::log::LogInput;
use program_runs::{Program, take_document, tell_untaken};
use program_streams::{InputFault, Sink, Source, ends_in_space, read_piece};
use std::alloc::Global;
use text_lines::PackedText;

/// The greatest number of bytes of a document that isn't in lines.
const MAX_DOCUMENT: usize = 1_048_576;

/// Takes a log in lines to its end, and any other document as far as a run reads one; or tells why it was not read and
/// gives the status that the run ends with. No more than a piece of a log in lines lies in memory unpacked.
pub fn take_log<I: Source, E: Sink>(
    alloc: Global,
    program: &Program,
    input: &mut I,
    faults: &mut E,
) -> Result<LogInput, u8>
    requires input { HasRoom (I.failed input.old) }
    requires faults { HasRoom (E.failed faults.old) }
    ensures taken { TakesLog (I.remaining input.old) (I.remaining input.new) result }
    ensures counts { CountsTaking (I.failed input.old) (I.failed input.new) result }
    ensures faults { TellsUnlessTaken (E.failed faults.old) (E.failed faults.new) result }
{
    match take_document(alloc, program, input, faults) {
        Ok(front) => match take_behind(alloc, front, input) {
            Ok(log) => Ok(log),
            Err(fault) => Err(tell_untaken(program, faults, fault)),
        },
        Err(status) => Err(status),
    }
}

/// Takes what is left behind a front that was taken, if that is longer than a document and a log in lines.
fn take_behind<I: Source>(
    alloc: Global,
    front: Vec<u8>,
    input: &mut I,
) -> Result<LogInput, InputFault>
    requires { HasRoom (I.failed input.old) }
    ensures taken { TakesBehind front.items (I.remaining input.old) (I.remaining input.new) result }
    ensures counts { CountsFailure (I.failed input.old) (I.failed input.new) result }
{
    match are_lines(alloc, front.as_slice()) {
        Ok(true) => match take_lines(alloc, front, input) {
            Ok(text) => Ok(LogInput::Lines(text)),
            Err(fault) => Err(fault),
        },
        Ok(false) => Ok(LogInput::Document(front)),
        Err(_) => Err(InputFault::NoMemory),
    }
}

/// Packs the front of a log in lines, and what is left behind it, if it is longer than a document.
fn take_lines<I: Source>(
    alloc: Global,
    front: Vec<u8>,
    input: &mut I,
) -> Result<PackedText, InputFault>
    requires { HasRoom (I.failed input.old) }
    ensures taken { TakesLines front.items (I.remaining input.old) (I.remaining input.new) result }
    ensures counts { CountsFailure (I.failed input.old) (I.failed input.new) result }
{
    let Ok(text) = PackedText::of(alloc, front.as_slice()) else {
        return Err(InputFault::NoMemory);
    };
    if front.len() <= MAX_DOCUMENT {
        return Ok(text);
    }
    take_rest(alloc, text, front, input)
}

/// Packs what is left of the input behind a text, to its end, piece by piece, each in the place of those bytes. It
/// stops where the text ends in more white space than may stand behind the last line of a log.
fn take_rest<I: Source>(
    alloc: Global,
    front: PackedText,
    bytes: Vec<u8>,
    input: &mut I,
) -> Result<PackedText, InputFault>
    requires { HasRoom (I.failed input.old) }
    ensures taken { PacksRest (I.remaining input.old) (I.remaining input.new) (text_in front) result }
    ensures counts { CountsFailure (I.failed input.old) (I.failed input.new) result }
{
    let mut text = front;
    let mut bytes = bytes;
    let mut pieces = 0usize;
    let mut more = true;
    'rest: while goes_on(more, &text) {
        pieces = match pieces.checked_add(1) {
            Some(pieces) => pieces,
            None => return Err(InputFault::NoMemory),
        };
        more = match take_piece(alloc, &mut text, &mut bytes, input) {
            Ok(more) => more,
            Err(fault) => return Err(fault),
        };
    }
    Ok(text)
}

/// Whether there may be more to read behind such a text.
fn goes_on(more: bool, text: &PackedText) -> bool
    ensures { result ≡ (more && not (ends_in_space (text_in text.now))) }
{
    more && !ends_in_space(text.codes.as_slice())
}

/// Packs the next piece of the input behind a text, and says whether it is whole. Otherwise the input is at its end.
fn take_piece<I: Source>(
    alloc: Global,
    text: &mut PackedText,
    bytes: &mut Vec<u8>,
    input: &mut I,
) -> Result<bool, InputFault>
    requires { HasRoom (I.failed input.old) }
    ensures taken { PacksPiece (I.remaining input.old) (I.remaining input.new)
        (text_in text.old) (text_in text.new) result }
    ensures counts { CountsFailure (I.failed input.old) (I.failed input.new) result }
{
    match read_piece(input, bytes) {
        Ok(more) => match text.push(alloc, bytes.as_slice()) {
            Ok(()) => Ok(more),
            Err(_) => Err(InputFault::NoMemory),
        },
        Err(fault) => Err(fault),
    }
}
