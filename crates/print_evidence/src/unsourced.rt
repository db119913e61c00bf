//! An operation that can't have found its record.
ghost use Rattle.std.specs.Prelude.{◌≡◌, ◌++◌, IfOk, OnOk};
ghost use Rattle.print_evidence.specs.Unsourced.{early_lines, later_text, of_line, two_lines, unwritten_lines};
ghost use Rattle.text_lines.specs.Words.{text_in};

use crate::lost::push_line_in;
use history_core::Reason;
use print_reasons::reason_text;
use reason_sentences::{push_line_of, push_u64, push_words};
use std::alloc::{AllocError, Global};
use text_lines::PackedText;

/// That the operation at a place found a record that no other one can leave.
#[tactic(auto, using(std::proofs::Common::append_assoc))]
pub fn unwritten_lines(alloc: Global, log: &PackedText, place: usize) -> Result<Vec<u8>, AllocError>
    ensures { IfOk result (λ text. text.items ≡ unwritten_lines (text_in log.now) place) }
{
    let mut text = reason_text(alloc, Reason::Unwritten { read: place })?;
    push_line_in(alloc, &mut text, log, place)?;
    push_of_line(
        &mut text,
        place,
        " found a record that is neither the opening nor written by another line.\n",
    )?;
    Ok(text)
}

/// That the operation at a place, which ended at a moment, found a record that none could leave by then. The first that
/// can is that at `source`, which began at a later moment.
#[tactic(auto, using(std::proofs::Common::append_assoc))]
pub fn early_lines(
    alloc: Global,
    log: &PackedText,
    place: usize,
    source: usize,
    end: u64,
    begin: u64,
) -> Result<Vec<u8>, AllocError>
    ensures { IfOk result (λ text. text.items ≡ early_lines (text_in log.now) place source end begin) }
{
    let reason = Reason::Early {
        read: place,
        write: source,
    };
    let mut text = reason_text(alloc, reason)?;
    push_two_lines(alloc, &mut text, log, place, source)?;
    push_of_line(
        &mut text,
        place,
        " found a record that no other line can have written by then: ",
    )?;
    push_later(&mut text, place, source, end, begin)?;
    Ok(text)
}

/// The lines of two operations, as the log has them.
#[tactic(auto, using(std::proofs::Common::append_assoc))]
fn push_two_lines(
    alloc: Global,
    text: &mut Vec<u8>,
    log: &PackedText,
    one: usize,
    other: usize,
) -> Result<(), AllocError>
    ensures { OnOk result (text.new.items ≡ text.old.items ++ two_lines (text_in log.now) one other) }
{
    let (first, second) = if other < one {
        (other, one)
    } else {
        (one, other)
    };
    push_line_in(alloc, text, log, first)?;
    push_line_in(alloc, text, log, second)
}

#[tactic(auto, using(std::proofs::Common::append_assoc))]
fn push_of_line(text: &mut Vec<u8>, place: usize, words: &str) -> Result<(), AllocError>
    ensures { OnOk result (text.new.items ≡ text.old.items ++ of_line place words.now) }
{
    push_line_of(text, "Line ", place)?;
    push_words(text, words)
}

#[tactic(auto, using(std::proofs::Common::append_assoc))]
fn push_later(
    text: &mut Vec<u8>,
    place: usize,
    source: usize,
    end: u64,
    begin: u64,
) -> Result<(), AllocError>
    ensures { OnOk result (text.new.items ≡ text.old.items ++ later_text place source end begin) }
{
    push_line_of(text, "line ", place)?;
    push_u64(text, " ended at ", end)?;
    push_line_of(text, ", line ", source)?;
    push_u64(text, ", the first that can, began at ", begin)?;
    push_words(text, ".\n")
}
