ghost use Rattle.std.specs.Prelude.{◌≡◌, ℕ, List, IfOk};
ghost use Rattle.program_runs.specs.Answers.{GivesReply, HasAnswerStatus};
ghost use Rattle.history_core.specs.declared.history.Op.{Op};
ghost use Rattle.history_thinning.specs.Answers.{IsThinnedAnswer, IsOfKept};
ghost use Rattle.history_thinning.specs.Thinnings.{IsThinnedLog};
ghost use Rattle.fsr_once_answers.specs.LinesAnswers.{IsLinesAnswer, exit_of, lawful_exit, printed, status_of};
ghost use Rattle.thinned_search.specs.Limits.{IsCounted};
ghost use Rattle.text_lines.specs.Words.{text_in};

use history_core::{Items, LogAnswer};
use kept_lines::LinesLog;
use lines_log::read_lines;
use print_reasons::{lines_text, shows_little};
use program_runs::{Answer, Fault, Show};
use program_streams::Exit;
use std::alloc::{AllocError, Global};
use text_lines::PackedText;
use thinned_search::{counted, search_thinned};

/// The answer of the command `order` to the bytes of a log in lines, with the writes in order if that is asked for.
pub fn order_lines(alloc: Global, show: Show, packed: &PackedText) -> Result<Answer, Fault>
    ensures gives { GivesReply (IsLinesAnswer show (text_in packed.now)) result }
    ensures status { HasAnswerStatus result }
{
    let log = match read_lines(alloc, packed) {
        Ok(log) => log,
        Err(fault) => return Err(fault),
    };
    match answer_log(alloc, show, packed, &log) {
        Ok(answer) => Ok(answer),
        Err(_) => Err(Fault::NoMemory),
    }
}

/// What a search finds, printed.
fn answer_log(
    alloc: Global,
    show: Show,
    packed: &PackedText,
    log: &LinesLog,
) -> Result<Answer, AllocError>
    ensures { IfOk result (λ answer. (limit : ℕ) (ops : List (Op ℕ)) → IsThinnedLog limit ops log.now.thinned →
        (found : LogAnswer) × (most : ℕ) × IsThinnedAnswer limit ops found × IsOfKept log.now.thinned.places found ×
        IsCounted limit ops found most × (answer ≡ printed show (text_in packed.now) log.now most found)) }
{
    let found = search_log(alloc, log)?;
    let most = counted(alloc, &log.thinned, &found)?;
    print(alloc, show, packed, log, most, &found)
}

/// What one of its orders is, or the reason why there is none.
pub fn search_log(alloc: Global, log: &LinesLog) -> Result<LogAnswer, AllocError>
    ensures { IfOk result (λ found. (limit : ℕ) (ops : List (Op ℕ)) → IsThinnedLog limit ops log.now.thinned →
        IsThinnedAnswer limit ops found × IsOfKept log.now.thinned.places found) }
{
    match search_thinned(alloc, &log.thinned) {
        Ok(found) => Ok(found),
        Err(_) => Err(AllocError),
    }
}

/// The lines of what was found, with its status.
fn print(
    alloc: Global,
    show: Show,
    packed: &PackedText,
    log: &LinesLog,
    most: u64,
    found: &LogAnswer,
) -> Result<Answer, AllocError>
    ensures { IfOk result (λ answer. answer ≡ printed show (text_in packed.now) log.now most found.now) }
{
    let text = lines_text(alloc, show.order, packed, log, most, found)?;
    let status = status_of(show.strict, log, found);
    Ok(Answer {
        text: Items::new(text),
        status,
    })
}

/// The status of a run that found this of a log. If it is strict, a lawful log that shows little has one of its own.
pub fn status_of(strict: bool, log: &LinesLog, found: &LogAnswer) -> u8
    ensures { result ≡ status_of strict log.now found.now }
{
    exit_of(strict, log, found).status()
}

fn exit_of(strict: bool, log: &LinesLog, found: &LogAnswer) -> Exit
    ensures { result ≡ exit_of strict log.now found.now }
{
    match found {
        LogAnswer::Lawful { .. } => lawful_exit(strict, shows_little(log)),
        LogAnswer::Unlawful { .. } => Exit::Unsound,
    }
}

/// How a run ends that found a lawful order.
pub fn lawful_exit(strict: bool, little: bool) -> Exit
    ensures { result ≡ lawful_exit strict little }
{
    if strict && little {
        Exit::Little
    } else {
        Exit::Sound
    }
}
