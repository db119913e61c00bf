//! The answer of which a small log is asked for.
ghost use Rattle.std.specs.Prelude.{◌≡◌, ℕ, List, IfOk};
ghost use Rattle.program_runs.specs.Answers.{GivesReply};
ghost use Rattle.history_core.specs.declared.history.Op.{Op};
ghost use Rattle.history_thinning.specs.Answers.{IsThinnedAnswer, IsOfKept};
ghost use Rattle.history_thinning.specs.Thinnings.{IsThinnedLog};
ghost use Rattle.fsr_keys_answers.specs.SmallAnswers.{IsSmallAnswer, printed};
ghost use Rattle.text_lines.specs.Words.{text_in};

use fsr_once_answers::{search_log, status_of};
use history_core::{Items, LogAnswer};
use kept_lines::LinesLog;
use lines_log::read_lines;
use program_runs::{Answer, Fault};
use small_log::small_text;
use std::alloc::{AllocError, Global};
use text_lines::PackedText;

/// The answer of the command `order` to the bytes of a log in lines, of which a small log is asked for.
pub fn order_small(alloc: Global, strict: bool, packed: &PackedText) -> Result<Answer, Fault>
    ensures { GivesReply (IsSmallAnswer strict (text_in packed.now)) result }
{
    let log = match read_lines(alloc, packed) {
        Ok(log) => log,
        Err(fault) => return Err(fault),
    };
    match answer_small(alloc, strict, &log) {
        Ok(answer) => Ok(answer),
        Err(_) => Err(Fault::NoMemory),
    }
}

/// What a search finds, as a small log.
fn answer_small(alloc: Global, strict: bool, log: &LinesLog) -> Result<Answer, AllocError>
    ensures { IfOk result (λ answer. (limit : ℕ) (ops : List (Op ℕ)) → IsThinnedLog limit ops log.now.thinned →
        (found : LogAnswer) × IsThinnedAnswer limit ops found × IsOfKept log.now.thinned.places found ×
        (answer ≡ printed strict log.now found)) }
{
    let found = search_log(alloc, log)?;
    print(alloc, strict, log, &found)
}

/// The small log, with the status of what was found.
fn print(
    alloc: Global,
    strict: bool,
    log: &LinesLog,
    found: &LogAnswer,
) -> Result<Answer, AllocError>
    ensures { IfOk result (λ answer. answer ≡ printed strict log.now found.now) }
{
    let text = small_text(alloc, &log.thinned, found)?;
    let status = status_of(strict, log, found);
    Ok(Answer {
        text: Items::new(text),
        status,
    })
}
