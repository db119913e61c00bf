//! The line at whose end a log is lost.
ghost use Rattle.std.specs.Prelude.{◌≡◌, ◌++◌, [], drop, slice_get, unwrap_or, IfOk, OnOk};
ghost use Rattle.print_evidence.specs.Lost.{head_text, line_in, lost_text, sentence_text};
ghost use Rattle.text_lines.specs.Splits.{lines_of};
ghost use Rattle.text_lines.specs.Words.{text_in};
ghost use Rattle.print_reasons.specs.Text.{line_text};

use print_reasons::{body_of, push_line};
use reason_sentences::{push_line_of, push_u64, push_words};
use std::alloc::{AllocError, Global};
use text_lines::{PackedText, split_line};

/// That a log is lost at the end, at this moment, of the operation at a place.
#[tactic(auto, using(std::proofs::Common::append_assoc))]
pub fn lost_text(
    alloc: Global,
    log: &PackedText,
    place: usize,
    end: u64,
) -> Result<Vec<u8>, AllocError>
    ensures { IfOk result (λ text. text.items ≡ lost_text (text_in log.now) place end) }
{
    let mut text = Vec::new(alloc);
    push_head(&mut text, place)?;
    push_line_in(alloc, &mut text, log, place)?;
    push_sentence(&mut text, place, end)?;
    Ok(text)
}

#[tactic(auto, using(std::proofs::Common::append_assoc))]
fn push_head(text: &mut Vec<u8>, place: usize) -> Result<(), AllocError>
    ensures { OnOk result (text.new.items ≡ text.old.items ++ head_text place) }
{
    push_line_of(text, "unlawful lost ", place)?;
    push_words(text, "\n")
}

#[tactic(auto, using(std::proofs::Common::append_assoc))]
fn push_sentence(text: &mut Vec<u8>, place: usize, end: u64) -> Result<(), AllocError>
    ensures { OnOk result (text.new.items ≡ text.old.items ++ sentence_text place end) }
{
    push_line_of(text, "Up to the end of line ", place)?;
    push_u64(text, ", at ", end)?;
    push_words(text, ", no order of the operations is lawful.\n")
}

/// Adds the line of the operation at a place of the log.
pub(crate) fn push_line_in(
    alloc: Global,
    text: &mut Vec<u8>,
    log: &PackedText,
    place: usize,
) -> Result<(), AllocError>
    ensures { OnOk result (text.new.items ≡ text.old.items ++ line_text place (line_in (text_in log.now) place)) }
{
    let mut line = Vec::new(alloc);
    log.tell(&mut line, line_in(log.codes.as_slice(), place))?;
    push_line(text, place, line.as_slice())
}

/// The line of the operation at a place.
fn line_in(bytes: &[u8], place: usize) -> &[u8]
    ensures { result.now ≡ line_in bytes.now place }
{
    let mut rest = body_of(bytes);
    for behind in 0..place {
        rest = body_of(rest);
    }
    first_line(rest)
}

fn first_line(bytes: &[u8]) -> &[u8]
    ensures { result.now ≡ unwrap_or (slice_get (lines_of bytes.now) 0) [] }
{
    match split_line(bytes) {
        Some((line, _)) => line,
        None => bytes,
    }
}
