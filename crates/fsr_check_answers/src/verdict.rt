ghost use Rattle.std.specs.Prelude.{◌≡◌, IfOk};
ghost use Rattle.program_runs.specs.Answers.{GivesReply};
ghost use Rattle.fsr_check_answers.specs.Check.{AnswersCheck, IsCheckAnswer, exit_of, printed};

use history_check::check_order;
use history_core::{Items, Verdict};
use program_runs::{Answer, Fault};
use program_streams::Exit;
use read_history::{CheckDocument, read_check_leaking, verdict_text};
use std::alloc::{AllocError, Global};

/// The answer of the command `check` to the bytes of a document: the verdict on its order.
pub fn check(alloc: Global, bytes: &[u8]) -> Result<Answer, Fault>
    ensures { GivesReply (IsCheckAnswer bytes.now) result }
{
    let document = read_check_leaking(alloc, bytes)?;
    check_history(alloc, &document)
}

/// The verdict on the order of a document.
fn check_history(alloc: Global, document: &CheckDocument) -> Result<Answer, Fault>
    ensures { GivesReply (AnswersCheck document.now) result }
{
    let verdict = check_order(&document.history, document.order.as_slice());
    let answer = print(alloc, verdict)?;
    Ok(answer)
}

/// The line of a verdict, with its status.
fn print(alloc: Global, verdict: Verdict) -> Result<Answer, AllocError>
    ensures { IfOk result (λ answer. answer ≡ printed verdict) }
{
    let text = Items::new(Vec::from_slice(alloc, verdict_text(verdict).as_bytes())?);
    let status = exit_of(verdict).status();
    Ok(Answer { text, status })
}

fn exit_of(verdict: Verdict) -> Exit
    ensures { result ≡ exit_of verdict }
{
    match verdict {
        Verdict::Lawful => Exit::Sound,
        _ => Exit::Unsound,
    }
}
