//! The answer to a log whose operations have several keys.
ghost use Rattle.std.specs.Prelude.{◌≡◌, ℕ, List, IfOk};
ghost use Rattle.program_runs.specs.Answers.{GivesReply, HasAnswerStatus};
ghost use Rattle.keys_log.specs.Keys.{IsKeysLog};
ghost use Rattle.fsr_keys_answers.specs.KeysAnswers.{IsKeysAnswer, IsKeysVerdict, keys_exit, keys_status, printed};
ghost use Rattle.fsr_keys_answers.specs.KeysAnswers.{shown};
ghost use Rattle.print_keys.specs.declared.keys_verdict.KeysVerdict.{KeysVerdict};
ghost use Rattle.text_lines.specs.Words.{text_in};

use crate::keys_small::small_keys;
use crate::keys_verdict::judge_keys;
use fsr_once_answers::lawful_exit;
use history_core::Items;
use kept_lines::KeysLog;
use keys_log::read_keys;
use print_keys::{KeysVerdict, added_up, keys_show_little, keys_text};
use program_runs::{Answer, Fault, Show};
use program_streams::Exit;
use std::alloc::{AllocError, Global};
use text_lines::PackedText;

/// The answer of the command `order` to the bytes of a log in lines whose operations have several keys: whether each
/// has a lawful order, or the first that has none, with what is asked for of it.
pub fn order_keys(alloc: Global, show: Show, packed: &PackedText) -> Result<Answer, Fault>
    ensures { GivesReply (IsKeysAnswer show (text_in packed.now)) result }
{
    let log = match read_keys(alloc, packed) {
        Ok(log) => log,
        Err(fault) => return Err(fault),
    };
    match answer_keys(alloc, show, packed, &log) {
        Ok(answer) => Ok(answer),
        Err(_) => Err(Fault::NoMemory),
    }
}

/// The verdict on each key, printed.
fn answer_keys(
    alloc: Global,
    show: Show,
    packed: &PackedText,
    log: &KeysLog,
) -> Result<Answer, AllocError>
    ensures { IfOk result (λ answer. (text : List ℕ) (is : IsKeysLog text log.now) →
        (verdict : KeysVerdict) × IsKeysVerdict is verdict
        × (answer ≡ printed show (text_in packed.now) log.now verdict)) }
{
    let verdict = judge_keys(alloc, log)?;
    print(alloc, show, packed, log, &verdict)
}

fn print(
    alloc: Global,
    show: Show,
    packed: &PackedText,
    log: &KeysLog,
    verdict: &KeysVerdict,
) -> Result<Answer, AllocError>
    ensures { IfOk result (λ answer. answer ≡ printed show (text_in packed.now) log.now verdict.now) }
{
    let text = shown(alloc, show, packed, log, verdict)?;
    let status = keys_status(show.strict, log, verdict)?;
    Ok(Answer {
        text: Items::new(text),
        status,
    })
}

fn shown(
    alloc: Global,
    show: Show,
    packed: &PackedText,
    log: &KeysLog,
    verdict: &KeysVerdict,
) -> Result<Vec<u8>, AllocError>
    ensures { IfOk result (λ text. text.items ≡ shown show show.small (text_in packed.now) log.now verdict.now) }
{
    if show.small {
        small_keys(alloc, log, verdict)
    } else {
        keys_text(alloc, show.order, packed, log, verdict)
    }
}

fn keys_status(strict: bool, log: &KeysLog, verdict: &KeysVerdict) -> Result<u8, AllocError>
    ensures { IfOk result (λ status. status ≡ keys_status strict log.now verdict.now) }
{
    let exit = keys_exit(strict, log, verdict)?;
    Ok(exit.status())
}

fn keys_exit(strict: bool, log: &KeysLog, verdict: &KeysVerdict) -> Result<Exit, AllocError>
    ensures { IfOk result (λ exit. exit ≡ keys_exit strict log.now verdict.now) }
{
    match verdict {
        KeysVerdict::Lawful { .. } => {
            let sums = added_up(log.logs.as_slice())?;
            Ok(lawful_exit(strict, keys_show_little(sums)))
        }
        KeysVerdict::Unlawful { .. } => Ok(Exit::Unsound),
    }
}
