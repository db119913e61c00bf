//! Logs in lines whose records are written once.
ghost use Rattle.std.specs.Prelude.{◌≡◌};
ghost use Rattle.program_runs.specs.Answers.{GivesReply};
ghost use Rattle.read_line.specs.Repeats.{has_repeats};
ghost use Rattle.fsr_once_answers.specs.Once.{IsAnswerOnce, IsOnceInLines, IsOtherDocument, other_fault};
ghost use Rattle.fsr_order_input.specs.Inputs.{input_text, IsByKind};
ghost use Rattle.text_lines.specs.Words.{text_in};

use crate::answer::order_lines;
use fsr_order_input::LogInput;
use lines_log::refused_at;
use program_runs::{Answer, Fault, LinesFault, Show};
use read_document::{DocError, Key};
use read_line::{has_repeats, read_header};
use std::alloc::Global;
use text_lines::PackedText;

/// The line of the header.
const HEADER: usize = 1;

/// The answer of the command `order` to a log in lines of one key that writes each record once: a lawful order of it,
/// or the reason why there is none. It is refused if its records repeat or it has several keys, and any other document
/// for its kind. No small log is made.
pub fn order_once(alloc: Global, show: Show, log: &LogInput) -> Result<Answer, Fault>
    requires { IsByKind log.now }
    ensures { GivesReply (IsAnswerOnce show (input_text log.now)) result }
{
    match log {
        LogInput::Lines(packed) => order_in_lines(alloc, show, packed),
        LogInput::Document(bytes) => refuse_other(alloc, bytes.as_slice()),
    }
}

/// The answer to the text of a log in lines.
fn order_in_lines(alloc: Global, show: Show, packed: &PackedText) -> Result<Answer, Fault>
    ensures { GivesReply (IsOnceInLines show (has_repeats (text_in packed.now)) (text_in packed.now)) result }
{
    let repeats = has_repeats(alloc, packed)?;
    if repeats {
        Err(refused_at(HEADER, DocError::Law(Key::Repeats)))
    } else {
        order_lines(alloc, show, packed)
    }
}

/// The refusal of bytes that are no log in lines.
fn refuse_other(alloc: Global, bytes: &[u8]) -> Result<Answer, Fault>
    ensures { GivesReply (IsOtherDocument bytes.now) result }
{
    match read_header(alloc, bytes) {
        Ok(_) => Err(Fault::Document(DocError::Kind)),
        Err(why) => Err(other_fault(why)),
    }
}

/// How it is told that bytes are no document, or one of another kind.
fn other_fault(why: DocError) -> Fault
    ensures { result ≡ other_fault why }
{
    match why {
        DocError::NotJson | DocError::Long => Fault::Lines(LinesFault::Headless { why }),
        DocError::NoMemory => Fault::NoMemory,
        _ => Fault::Document(DocError::Kind),
    }
}
