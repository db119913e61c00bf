//! All that is printed of a log whose records repeat.
ghost use Rattle.std.specs.Prelude.{◌≡◌, ◌++◌, IfOk, OnOk};
ghost use Rattle.fsr_repeats_answers.specs.ExchangesText.{begin_of, counts_text, end_of, lawful_text, ops_text};
ghost use Rattle.fsr_repeats_answers.specs.ExchangesText.{limited_text, shown_text, unlawful_text, unsourced_text};
ghost use Rattle.print_evidence.specs.Limited.{limited_lines};
ghost use Rattle.print_evidence.specs.Together.{together_text};
ghost use Rattle.text_lines.specs.Words.{text_in};

use crate::evidence::Evidence;
use exchanges_log::ExchangesLog;
use object_core::Operation;
use object_sources::Unsourced;
use object_window::Window;
use print_evidence::{early_lines, limited_lines, lost_text, together_text, unwritten_lines};
use print_reasons::{push_count, push_end};
use std::alloc::{AllocError, Global};
use text_lines::PackedText;

pub(crate) fn lawful_text(alloc: Global, log: &ExchangesLog) -> Result<Vec<u8>, AllocError>
    ensures { IfOk result (λ text. text.items ≡ lawful_text log.now) }
{
    let mut text = Vec::from_slice(alloc, b"lawful\n")?;
    push_counts(&mut text, log)?;
    Ok(text)
}

/// What shows that the log is lost, and the counts.
pub(crate) fn unlawful_text(
    alloc: Global,
    packed: &PackedText,
    log: &ExchangesLog,
    place: usize,
    evidence: &Evidence,
) -> Result<Vec<u8>, AllocError>
    ensures { IfOk result (λ text. text.items ≡ unlawful_text (text_in packed.now) log.now place evidence.now) }
{
    let mut text = shown_text(alloc, packed, log, place, evidence)?;
    push_counts(&mut text, log)?;
    Ok(text)
}

/// That the log is lost by this limit, and the counts.
pub(crate) fn limited_text(
    alloc: Global,
    packed: &PackedText,
    log: &ExchangesLog,
    place: usize,
    limit: u64,
) -> Result<Vec<u8>, AllocError>
    ensures { IfOk result (λ text. text.items ≡ limited_text (text_in packed.now) log.now place limit) }
{
    let mut text = lost_by_limit(alloc, packed, log, place, limit)?;
    push_counts(&mut text, log)?;
    Ok(text)
}

fn lost_by_limit(
    alloc: Global,
    packed: &PackedText,
    log: &ExchangesLog,
    place: usize,
    limit: u64,
) -> Result<Vec<u8>, AllocError>
    ensures { IfOk result (λ text. text.items
        ≡ limited_lines (text_in packed.now) place (end_of log.now.ops.items place) limit) }
{
    let ops = log.ops.as_slice();
    limited_lines(alloc, packed, place, end_of(ops, place), limit)
}

/// What shows that the log is lost, or else the line at whose end it is.
fn shown_text(
    alloc: Global,
    packed: &PackedText,
    log: &ExchangesLog,
    place: usize,
    evidence: &Evidence,
) -> Result<Vec<u8>, AllocError>
    ensures { IfOk result (λ text. text.items ≡ shown_text (text_in packed.now) log.now place evidence.now) }
{
    match evidence {
        Evidence::NoSource(why) => unsourced_text(alloc, packed, log, place, *why),
        Evidence::Together(window) => window_text(alloc, packed, window),
        Evidence::Nothing => lost_text(alloc, packed, place, end_of(log.ops.as_slice(), place)),
    }
}

/// Why the operation at a place can't have found its record.
fn unsourced_text(
    alloc: Global,
    packed: &PackedText,
    log: &ExchangesLog,
    place: usize,
    why: Unsourced,
) -> Result<Vec<u8>, AllocError>
    ensures { IfOk result (λ text. text.items ≡ unsourced_text (text_in packed.now) log.now place why) }
{
    let ops = log.ops.as_slice();
    match why {
        Unsourced::Unwritten => unwritten_lines(alloc, packed, place),
        Unsourced::Early { source } => early_lines(
            alloc,
            packed,
            place,
            source,
            end_of(ops, place),
            begin_of(ops, source),
        ),
    }
}

fn window_text(alloc: Global, packed: &PackedText, window: &Window) -> Result<Vec<u8>, AllocError>
    ensures { IfOk result (λ text. text.items
        ≡ together_text (text_in packed.now) window.now.first window.now.last window.now.places.items) }
{
    let places = window.places.as_slice();
    together_text(alloc, packed, window.first, window.last, places)
}

/// When the operation at a place ended.
fn end_of<W>(ops: &[Operation<W>], place: usize) -> u64
    ensures { result ≡ end_of ops.now place }
{
    match ops.get(place) {
        Some(op) => op.ends.unwrap_or(0),
        None => 0,
    }
}

/// When it began.
fn begin_of<W>(ops: &[Operation<W>], place: usize) -> u64
    ensures { result ≡ begin_of ops.now place }
{
    match ops.get(place) {
        Some(op) => op.starts,
        None => 0,
    }
}

fn push_ops(text: &mut Vec<u8>, log: &ExchangesLog) -> Result<(), AllocError>
    ensures { OnOk result (text.new.items ≡ text.old.items ++ ops_text log.now) }
{
    push_count(text, log.ops.len(), " operations, ")
}

fn push_counts(text: &mut Vec<u8>, log: &ExchangesLog) -> Result<(), AllocError>
    ensures { OnOk result (text.new.items ≡ text.old.items ++ counts_text log.now) }
{
    push_ops(text, log)?;
    push_count(text, log.unfinished, " unfinished, ")?;
    push_count(text, log.uncertain, " uncertain, ")?;
    push_count(text, log.records, " records")?;
    push_end(text, log.ended)
}
