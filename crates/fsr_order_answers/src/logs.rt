//! Logs of either kind.
ghost use Rattle.program_runs.specs.Answers.{GivesReply};
ghost use Rattle.read_line.specs.Repeats.{has_repeats};
ghost use Rattle.fsr_order_answers.specs.Order.{IsAnswerInLines, IsOrderAnswer};
ghost use Rattle.fsr_order_input.specs.Inputs.{input_text, IsByKind};
ghost use Rattle.text_lines.specs.Words.{text_in};

use crate::input::log_input;
use fsr_keys_answers::order_by_keys;
use fsr_log_answers::order_document;
use fsr_order_input::LogInput;
use fsr_repeats_answers::order_exchanges;
use program_runs::{Answer, Fault, Show};
use read_line::has_repeats;
use std::alloc::Global;
use text_lines::PackedText;

/// The answer of the command `order` to the input: a lawful order of its log, or the reason why there is none. For a
/// log in lines whose records repeat there is a budget, and for any other one in lines a choice of what is printed, and
/// of the status where little is shown.
pub fn order(alloc: Global, show: Show, log: &LogInput) -> Result<Answer, Fault>
    requires { IsByKind log.now }
    ensures { GivesReply (IsOrderAnswer show (input_text log.now)) result }
{
    match log {
        LogInput::Lines(packed) => order_in_lines(alloc, show, packed),
        LogInput::Document(bytes) => order_document(alloc, bytes.as_slice()),
    }
}

/// The answer to the text of a log in lines.
fn order_in_lines(alloc: Global, show: Show, packed: &PackedText) -> Result<Answer, Fault>
    ensures { GivesReply (IsAnswerInLines show (has_repeats (text_in packed.now)) (text_in packed.now)) result }
{
    let repeats = has_repeats(alloc, packed)?;
    if repeats {
        order_exchanges(alloc, show.budget, packed)
    } else {
        order_by_keys(alloc, show, packed)
    }
}

/// The same of the bytes of a document in memory.
pub fn order_bytes(alloc: Global, show: Show, bytes: &[u8]) -> Result<Answer, Fault>
    ensures { GivesReply (IsOrderAnswer show bytes.now) result }
{
    match log_input(alloc, bytes) {
        Ok(log) => order(alloc, show, &log),
        Err(_) => Err(Fault::NoMemory),
    }
}
