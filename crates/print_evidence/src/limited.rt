//! The line at whose end a log is lost by its limit.
ghost use Rattle.std.specs.Prelude.{◌≡◌, ◌++◌, IfOk, OnOk};
ghost use Rattle.print_evidence.specs.Limited.{limited_lines, with_limit_text};
ghost use Rattle.text_lines.specs.Words.{text_in};

use crate::lost::push_line_in;
use history_core::Reason;
use print_reasons::reason_text;
use reason_sentences::{push_line_of, push_u64, push_words};
use std::alloc::{AllocError, Global};
use text_lines::PackedText;

/// That with this limit a log is lost at the end, at this moment, of the operation at a place; without, it is lawful.
#[tactic(auto, using(std::proofs::Common::append_assoc))]
pub fn limited_lines(
    alloc: Global,
    log: &PackedText,
    place: usize,
    end: u64,
    limit: u64,
) -> Result<Vec<u8>, AllocError>
    ensures { IfOk result (λ text. text.items ≡ limited_lines (text_in log.now) place end limit) }
{
    let mut text = reason_text(alloc, Reason::Limit { refused: place })?;
    push_line_in(alloc, &mut text, log, place)?;
    push_with_limit(&mut text, place, end, limit)?;
    Ok(text)
}

#[tactic(auto, using(std::proofs::Common::append_assoc))]
fn push_with_limit(text: &mut Vec<u8>, place: usize, end: u64, limit: u64) -> Result<(), AllocError>
    ensures { OnOk result (text.new.items ≡ text.old.items ++ with_limit_text place end limit) }
{
    push_line_of(text, "Up to the end of line ", place)?;
    push_u64(text, ", at ", end)?;
    push_u64(
        text,
        ", no order of the operations is lawful with the limit ",
        limit,
    )?;
    push_words(text, "; without it the log is lawful.\n")
}
