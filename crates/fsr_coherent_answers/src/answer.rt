//! The answer, or the fault.
ghost use Rattle.std.specs.Prelude.{◌≡◌, IfOk};
ghost use Rattle.fsr_coherent_answers.specs.CoherenceAnswers.{IsCoherenceAnswer, IsFoundCoherence, IsOnceAnswer};
ghost use Rattle.fsr_coherent_answers.specs.CoherenceText.{printed, status_of};
ghost use Rattle.history_coherence.specs.Answers.{AreWrittenOnce, IsCoherence};
ghost use Rattle.lines_log.specs.Faults.{IsLinesFault};
ghost use Rattle.text_lines.specs.Words.{text_in};
ghost use Rattle.program_runs.specs.Answers.{GivesReply, HasAnswerStatus};
ghost use Rattle.whole_log.specs.WholeLogs.{IsWholeLog};

use crate::text::coherence_text;
use history_coherence::{Coherence, check_written, search_coherent};
use history_core::Items;
use lines_log::{read_lines, refused_at};
use program_runs::{Answer, Fault};
use program_streams::Exit;
use read_document::{DocError, Key};
use read_line::has_repeats;
use std::alloc::{AllocError, Global};
use text_lines::PackedText;
use whole_log::{Unread, WholeLog, read_whole};

/// The line of the header.
const HEADER: usize = 1;

/// The answer to the text of a log in lines that is asked for its coherence. One whose records repeat is refused.
pub fn order_coherent(alloc: Global, packed: &PackedText) -> Result<Answer, Fault>
    ensures gives { GivesReply (IsCoherenceAnswer (text_in packed.now)) result }
    ensures status { HasAnswerStatus result }
{
    match has_repeats(alloc, packed) {
        Ok(true) => Err(refused_at(HEADER, DocError::Law(Key::Repeats))),
        Ok(false) => order_once(alloc, packed),
        Err(_) => Err(Fault::NoMemory),
    }
}

/// The answer where records are written once.
fn order_once(alloc: Global, packed: &PackedText) -> Result<Answer, Fault>
    ensures gives { GivesReply (IsOnceAnswer (text_in packed.now)) result }
    ensures status { HasAnswerStatus result }
{
    match read_once(alloc, packed) {
        Ok(log) => match answer_log(alloc, packed, &log) {
            Ok(answer) => Ok(answer),
            Err(_) => Err(Fault::NoMemory),
        },
        Err(Unread) => Err(fault_of(alloc, packed)),
    }
}

/// The log that the text stands for, of which each record is written once.
fn read_once(alloc: Global, packed: &PackedText) -> Result<WholeLog, Unread>
    ensures is { IfOk result (IsWholeLog (text_in packed.now)) }
    ensures once { IfOk result (λ log. AreWrittenOnce log.ops.items) }
{
    let log = read_whole(alloc, packed)?;
    match check_written(alloc, log.ops.as_slice()) {
        Ok(()) => Ok(log),
        Err(_) => Err(Unread),
    }
}

/// Why it stands for none. If it does, memory ran out.
fn fault_of(alloc: Global, packed: &PackedText) -> Fault
    ensures { IsLinesFault (text_in packed.now) result }
{
    match read_lines(alloc, packed) {
        Ok(_) => Fault::NoMemory,
        Err(fault) => fault,
    }
}

/// What a search finds, printed.
fn answer_log(alloc: Global, packed: &PackedText, log: &WholeLog) -> Result<Answer, AllocError>
    requires { AreWrittenOnce log.now.ops.items }
    ensures found { IfOk result (IsFoundCoherence (text_in packed.now) log.now) }
    ensures status { IfOk result (λ answer. HasAnswerStatus (Ok answer)) }
{
    let found = search_coherent(alloc, log.ops.as_slice())?;
    print(alloc, packed, log, &found)
}

/// The lines of what was found, with its status.
fn print(
    alloc: Global,
    packed: &PackedText,
    log: &WholeLog,
    found: &Coherence,
) -> Result<Answer, AllocError>
    ensures { IfOk result (λ answer. answer ≡ printed (text_in packed.now) log.now found.now) }
{
    let text = coherence_text(alloc, packed, log, found)?;
    Ok(Answer {
        text: Items::new(text),
        status: status_of(found),
    })
}

fn status_of(found: &Coherence) -> u8
    ensures { result ≡ status_of found.now }
{
    match found {
        Coherence::Coherent { .. } => Exit::Sound.status(),
        Coherence::Incoherent { .. } => Exit::Unsound.status(),
    }
}
