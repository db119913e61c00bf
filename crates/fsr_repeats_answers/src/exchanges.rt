//! The answer to a log whose records repeat.
ghost use Rattle.std.specs.Prelude.{◌≡◌, IfOk};
ghost use Rattle.fsr_repeats_answers.specs.Exchanges.{IsExchangesAnswer, printed};
ghost use Rattle.fsr_repeats_answers.specs.Judgements.{IsJudgement};
ghost use Rattle.fsr_repeats_answers.specs.declared.judgement.Judgement.{Judgement};
ghost use Rattle.object_sweep.specs.Rests.{RunForwards};
ghost use Rattle.program_runs.specs.Answers.{GivesReply};
ghost use Rattle.text_lines.specs.Words.{text_in};

use crate::exchanges_text::{lawful_text, limited_text, unlawful_text};
use crate::judgement::{Judgement, judge};
use exchanges_log::laws::read_log_runs_forwards;
use exchanges_log::{ExchangesLog, read_exchanges};
use history_core::Items;
use program_runs::{Answer, Fault};
use std::alloc::{AllocError, Global};
use text_lines::{PackedText, line_of};

/// The answer of the command `order` to the text of a log whose records repeat: whether it has a lawful order, or what
/// shows that it has none, or else the end at which it is lost; or that there are more configurations than the
/// budget.
pub fn order_exchanges(alloc: Global, budget: usize, packed: &PackedText) -> Result<Answer, Fault>
    ensures { GivesReply (IsExchangesAnswer budget (text_in packed.now)) result }
{
    let log = match read_exchanges(alloc, packed) {
        Ok(log) => log,
        Err(fault) => return Err(fault),
    };
    read_log_runs_forwards();
    match answer_log(alloc, budget, packed, &log) {
        Ok(reply) => reply,
        Err(_) => Err(Fault::NoMemory),
    }
}

/// What is known, printed.
fn answer_log(
    alloc: Global,
    budget: usize,
    packed: &PackedText,
    log: &ExchangesLog,
) -> Result<Result<Answer, Fault>, AllocError>
    requires { RunForwards log.now.ops.items }
    ensures { IfOk result (λ reply. (judgement : Judgement)
        × IsJudgement log.now.limit log.now.ops.items budget judgement
        × (reply ≡ printed (text_in packed.now) log.now judgement)) }
{
    let judgement = judge_log(alloc, budget, log)?;
    print(alloc, packed, log, &judgement)
}

fn judge_log(alloc: Global, budget: usize, log: &ExchangesLog) -> Result<Judgement, AllocError>
    requires { RunForwards log.now.ops.items }
    ensures { IfOk result (IsJudgement log.now.limit log.now.ops.items budget) }
{
    judge(alloc, budget, log.limit, log.ops.as_slice())
}

fn print(
    alloc: Global,
    packed: &PackedText,
    log: &ExchangesLog,
    judgement: &Judgement,
) -> Result<Result<Answer, Fault>, AllocError>
    ensures { IfOk result (λ reply. reply ≡ printed (text_in packed.now) log.now judgement.now) }
{
    match judgement {
        Judgement::Lawful => {
            let text = Items::new(lawful_text(alloc, log)?);
            Ok(Ok(Answer { text, status: 0 }))
        }
        Judgement::Lost { place, evidence } => {
            let text = unlawful_text(alloc, packed, log, *place, evidence)?;
            Ok(Ok(unlawful(text)))
        }
        Judgement::Limited { place, limit } => {
            let text = limited_text(alloc, packed, log, *place, *limit)?;
            Ok(Ok(unlawful(text)))
        }
        Judgement::TooMany { place } => {
            let line = line_of(*place)?;
            Ok(Err(Fault::Undecided { line }))
        }
    }
}

fn unlawful(text: Vec<u8>) -> Answer
    ensures { result ≡ record { text = text.items; status = 1 } }
{
    Answer {
        text: Items::new(text),
        status: 1,
    }
}
