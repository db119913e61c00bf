//! All that is printed of a log that was watched.
ghost use Rattle.std.specs.Prelude.{◌≡◌, ◌++◌, IfOk, OnOk};
ghost use Rattle.std.specs.Fmt.{decimal};
ghost use Rattle.fsr_watch_answers.specs.Text.{answer_of, count_text, counts_text, end_text, lost_text, told_text};

use history_core::Items;
use itoa::Buffer;
use program_runs::Answer;
use std::alloc::{AllocError, Global};
use watch_lines::{Counts, Told};

/// What is told, with its status.
pub(crate) fn answer_of(alloc: Global, told: Told) -> Result<Answer, AllocError>
    ensures { IfOk result (λ answer. answer ≡ answer_of told) }
{
    let text = Items::new(told_text(alloc, told)?);
    match told {
        Told::Lawful { .. } => Ok(Answer { text, status: 0 }),
        Told::Lost { .. } => Ok(Answer { text, status: 1 }),
    }
}

fn told_text(alloc: Global, told: Told) -> Result<Vec<u8>, AllocError>
    ensures { IfOk result (λ text. text.items ≡ told_text told) }
{
    match told {
        Told::Lawful { counts, ended } => {
            let mut text = Vec::from_slice(alloc, b"lawful\n")?;
            push_counts(&mut text, counts, ended)?;
            Ok(text)
        }
        Told::Lost { at, line } => {
            let mut text = Vec::from_slice(alloc, b"unlawful lost ")?;
            push_lost(&mut text, at, line)?;
            Ok(text)
        }
    }
}

#[tactic(auto, using(std::proofs::Common::append_assoc))]
fn push_counts(text: &mut Vec<u8>, counts: Counts, ended: bool) -> Result<(), AllocError>
    ensures { OnOk result (text.new.items ≡ text.old.items ++ counts_text counts ended) }
{
    push_count(text, counts.ops as u64, " operations, ")?;
    push_count(text, counts.unfinished as u64, " unfinished, ")?;
    push_count(text, counts.uncertain as u64, " uncertain, ")?;
    push_count(text, counts.floors as u64, " floors")?;
    push_end(text, ended)
}

/// That the end isn't there, if so.
fn push_end(text: &mut Vec<u8>, ended: bool) -> Result<(), AllocError>
    ensures { OnOk result (text.new.items ≡ text.old.items ++ end_text ended) }
{
    if ended {
        text.extend_from_slice(b"\n")
    } else {
        text.extend_from_slice(b"; no last line `done`\n")
    }
}

#[tactic(auto, using(std::proofs::Common::append_assoc))]
fn push_lost(text: &mut Vec<u8>, at: u64, line: usize) -> Result<(), AllocError>
    ensures { OnOk result (text.new.items ≡ text.old.items ++ lost_text at line) }
{
    push_count(text, line as u64, "\nThe log is lost at ")?;
    push_count(text, at, ", when line ")?;
    push_count(
        text,
        line as u64,
        " ended: no order of what is known by then is lawful, whatever comes.\n",
    )
}

fn push_count(text: &mut Vec<u8>, number: u64, words: &str) -> Result<(), AllocError>
    ensures { OnOk result (text.new.items ≡ text.old.items ++ count_text number words.now) }
{
    push_number(text, number)?;
    text.extend_from_slice(words.as_bytes())
}

fn push_number(text: &mut Vec<u8>, number: u64) -> Result<(), AllocError>
    ensures { OnOk result (text.new.items ≡ text.old.items ++ decimal number) }
{
    let mut buffer = Buffer::new();
    let digits = buffer.format(number);
    text.extend_from_slice(digits.as_bytes())
}
