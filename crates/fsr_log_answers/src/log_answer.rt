ghost use Rattle.std.specs.Prelude.{◌≡◌, IfOk};
ghost use Rattle.program_runs.specs.Answers.{GivesReply};
ghost use Rattle.fsr_log_answers.specs.Logs.{AnswersOrder, fault_of, IsLogAnswer, printed, status_of};
ghost use Rattle.read_document.specs.Refusals.{Gives as Reads};
ghost use Rattle.read_log.specs.Log.{CanBeSearched, log_of};

use crate::text::search_text;
use history_core::{Band, History, Items, Search};
use program_runs::{Answer, Fault, LinesFault};
use read_document::{DocError, read_value};
use read_log::{log_document, search_log};
use std::alloc::{AllocError, Global};
use std::mem::forget;

/// The answer of the command `order` to the bytes of a document of kind `log`: a lawful order of it, or the reason why
/// there is none. A document that has no kind or another one is refused.
pub fn order_document(alloc: Global, bytes: &[u8]) -> Result<Answer, Fault>
    ensures { GivesReply (IsLogAnswer bytes.now) result }
{
    match read(alloc, bytes) {
        Ok(log) => order_log(alloc, &log),
        Err(why) => Err(fault_of(why)),
    }
}

/// How the refusal of bytes is told that have no header of kind `lines`.
fn fault_of(why: DocError) -> Fault
    ensures { result ≡ fault_of why }
{
    match why {
        DocError::NotJson | DocError::Long => Fault::Lines(LinesFault::Headless { why }),
        DocError::NoMemory => Fault::NoMemory,
        _ => Fault::Document(why),
    }
}

/// The log that the bytes stand for. The JSON value that they are is left unfreed: a run reads one document and ends,
/// and the value goes with the process.
#[tactic(auto, unfolding(read_log::specs::Log::log_of))]
fn read(alloc: Global, bytes: &[u8]) -> Result<History<Band>, DocError>
    ensures log { Reads (λ h. h) result (log_of bytes.now) }
    ensures searchable { IfOk result CanBeSearched }
{
    let value = read_value(alloc, bytes)?;
    let log = log_document(alloc, &value);
    forget(value);
    log
}

/// What is found of a log.
fn order_log(alloc: Global, log: &History<Band>) -> Result<Answer, Fault>
    requires { CanBeSearched log.now }
    ensures { GivesReply (AnswersOrder log.now) result }
{
    let search = search_log(alloc, log)?;
    let answer = print(alloc, &search)?;
    Ok(answer)
}

/// The lines of what was found, with its status.
fn print(alloc: Global, search: &Search) -> Result<Answer, AllocError>
    ensures { IfOk result (λ answer. answer ≡ printed search.now) }
{
    let text = Items::new(search_text(alloc, search)?);
    let status = status_of(search);
    Ok(Answer { text, status })
}

fn status_of(search: &Search) -> u8
    ensures { result ≡ status_of search.now }
{
    match search {
        Search::Order(_) => 0,
        Search::Unlawful(_) => 1,
    }
}
