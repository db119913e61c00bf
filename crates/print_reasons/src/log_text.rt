//! All that is printed of a log in lines.
ghost use Rattle.std.specs.Prelude.{◌≡◌, ◌++◌, IfOk, OnOk};
ghost use Rattle.text_lines.specs.Words.{text_in};
ghost use Rattle.print_reasons.specs.LogText.{counts_text, lines_text, shown_text, shows_little};

use crate::counts::{are_few, push_count, push_end, push_little};
use crate::text::verdict_text;
use history_core::LogAnswer;
use kept_lines::LinesLog;
use std::alloc::{AllocError, Global};
use text_lines::PackedText;

/// The verdict, with the writes in order if that is asked for, how little is shown, if so, and the counts.
#[tactic(auto, using(std::proofs::Common::append_assoc))]
pub fn lines_text(
    alloc: Global,
    order: bool,
    packed: &PackedText,
    log: &LinesLog,
    most: u64,
    found: &LogAnswer,
) -> Result<Vec<u8>, AllocError>
    ensures { IfOk result (λ text. text.items ≡ lines_text order (text_in packed.now) log.now most found.now) }
{
    let mut text = verdict_text(alloc, order, packed, &log.thinned, most, found)?;
    push_shown(&mut text, log, found)?;
    push_counts(&mut text, log)?;
    Ok(text)
}

fn push_shown(text: &mut Vec<u8>, log: &LinesLog, found: &LogAnswer) -> Result<(), AllocError>
    ensures { OnOk result (text.new.items ≡ text.old.items ++ shown_text log.now found.now) }
{
    match found {
        LogAnswer::Lawful { .. } => push_little(text, log.ops, log.records, log.read),
        LogAnswer::Unlawful { .. } => Ok(()),
    }
}

/// Whether this says something of a lawful log.
pub fn shows_little(log: &LinesLog) -> bool
    ensures { result ≡ shows_little log.now }
{
    log.ops == 0 || are_few(log.read, log.records)
}

fn push_counts(text: &mut Vec<u8>, log: &LinesLog) -> Result<(), AllocError>
    ensures { OnOk result (text.new.items ≡ text.old.items ++ counts_text log.now) }
{
    push_count(text, log.ops, " operations, ")?;
    push_count(text, log.unfinished, " unfinished, ")?;
    push_count(text, log.records, " records, ")?;
    push_count(text, log.read, " of them read")?;
    push_end(text, log.ended)
}
