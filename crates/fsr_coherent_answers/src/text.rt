//! All that is printed of a log that is asked for its coherence.
ghost use Rattle.std.specs.Prelude.{◌≡◌, ◌++◌, ℕ, List, map, IfOk, OnOk};
ghost use Rattle.fsr_coherent_answers.specs.CoherenceText.{ahead_text, circle_text, coherence_text, counts_text};
ghost use Rattle.fsr_coherent_answers.specs.CoherenceText.{found_text, incoherent_text, name_of, named_text};
ghost use Rattle.fsr_coherent_answers.specs.CoherenceText.{sentence_text};
ghost use Rattle.reason_sentences.specs.Numbers.{number_text};
ghost use Rattle.reason_sentences.specs.Sentences.{unwritten_text};
ghost use Rattle.print_reasons.specs.Text.{body_of, line_text};
ghost use Rattle.text_lines.specs.Words.{text_in, told};
ghost use Rattle.print_evidence.specs.Lost.{line_in};
ghost use Rattle.print_evidence.specs.Together.{shown_lines};
ghost use Rattle.text_lines.specs.Places.{line_at};

use crate::lines::{body_lines, line_in};
use crate::places::places_in;
use history_coherence::{Coherence, Incoherence};
use print_reasons::{push_count, push_end, push_line, push_little, push_place_lines};
use reason_sentences::{push_line_of, push_unwritten, push_words};
use std::alloc::{AllocError, Global};
use text_lines::PackedText;
use whole_log::WholeLog;

/// What was found, and the counts.
pub(crate) fn coherence_text(
    alloc: Global,
    packed: &PackedText,
    log: &WholeLog,
    found: &Coherence,
) -> Result<Vec<u8>, AllocError>
    ensures { IfOk result (λ text. text.items ≡ coherence_text (text_in packed.now) log.now found.now) }
{
    let mut text = found_text(alloc, packed, log, found)?;
    push_counts(&mut text, log)?;
    Ok(text)
}

fn found_text(
    alloc: Global,
    packed: &PackedText,
    log: &WholeLog,
    found: &Coherence,
) -> Result<Vec<u8>, AllocError>
    ensures { IfOk result (λ text. text.items ≡ found_text (text_in packed.now) log.now found.now) }
{
    match found {
        Coherence::Coherent { .. } => {
            let mut text = Vec::from_slice(alloc, b"coherent\n")?;
            push_little(&mut text, log.ops.len(), log.records, log.read)?;
            Ok(text)
        }
        Coherence::Incoherent { reason } => incoherent_text(alloc, packed, reason),
    }
}

/// A reason by its lines, these lines as they stand in the log, and a sentence.
#[tactic(auto, using(std::proofs::Common::append_assoc))]
fn incoherent_text(
    alloc: Global,
    packed: &PackedText,
    reason: &Incoherence,
) -> Result<Vec<u8>, AllocError>
    ensures { IfOk result (λ text. text.items ≡ incoherent_text (text_in packed.now) reason.now) }
{
    let places = places_in(alloc, reason)?;
    let lines = body_lines(alloc, packed.codes.as_slice())?;
    let mut text = Vec::from_slice(alloc, b"incoherent ")?;
    push_words(&mut text, name_of(reason))?;
    push_named(&mut text, places.as_slice())?;
    push_shown(
        alloc,
        &mut text,
        packed,
        lines.as_slice(),
        places.as_slice(),
    )?;
    push_sentence(&mut text, reason)?;
    Ok(text)
}

fn name_of(reason: &Incoherence) -> &'static str
    ensures { result.now ≡ name_of reason.now }
{
    match reason {
        Incoherence::Unwritten { .. } => "unwritten",
        Incoherence::Ahead { .. } => "ahead",
        Incoherence::Circle { .. } => "circle",
    }
}

#[tactic(auto, using(std::proofs::Common::append_assoc))]
fn push_named(text: &mut Vec<u8>, places: &[usize]) -> Result<(), AllocError>
    ensures { OnOk result (text.new.items ≡ text.old.items ++ named_text places.now) }
{
    push_place_lines(text, places)?;
    push_words(text, "\n")
}

/// The lines as they stand in the log, each behind its number. These are the codes of all of them.
fn push_shown(
    alloc: Global,
    text: &mut Vec<u8>,
    packed: &PackedText,
    lines: &[&[u8]],
    places: &[usize],
) -> Result<(), AllocError>
    ensures { OnOk result ((codes : List ℕ) → map (λ line. line.now) lines.now ≡ body_of codes →
        text.new.items ≡ text.old.items ++ shown_lines (told packed.now.packed codes) places.now) }
{
    for place in places {
        push_shown_line(alloc, text, packed, lines, *place)?;
    }
    Ok(())
}

fn push_shown_line(
    alloc: Global,
    text: &mut Vec<u8>,
    packed: &PackedText,
    lines: &[&[u8]],
    place: usize,
) -> Result<(), AllocError>
    ensures { OnOk result ((codes : List ℕ) → map (λ line. line.now) lines.now ≡ body_of codes →
        text.new.items ≡ text.old.items ++ line_text place (line_in (told packed.now.packed codes) place)) }
{
    let mut line = Vec::new(alloc);
    packed.tell(&mut line, line_in(lines, place))?;
    push_line(text, place, line.as_slice())
}

fn push_sentence(text: &mut Vec<u8>, reason: &Incoherence) -> Result<(), AllocError>
    ensures { OnOk result (text.new.items ≡ text.old.items ++ sentence_text reason.now) }
{
    match reason {
        Incoherence::Unwritten { read } => push_unwritten(text, *read),
        Incoherence::Ahead { read, write } => push_ahead(text, *read, *write),
        Incoherence::Circle { .. } => push_circle(text),
    }
}

#[tactic(auto, using(std::proofs::Common::append_assoc))]
fn push_circle(text: &mut Vec<u8>) -> Result<(), AllocError>
    ensures { OnOk result (text.new.items ≡ text.old.items ++ circle_text) }
{
    push_words(
        text,
        "Each two lines are of one task, so the record of the first has to stand before that of the second.\n",
    )?;
    push_words(
        text,
        "That goes in a circle; the opening stands before all others.\n",
    )
}

fn push_ahead(text: &mut Vec<u8>, read: usize, write: usize) -> Result<(), AllocError>
    ensures { OnOk result (text.new.items ≡ text.old.items ++ ahead_text read write) }
{
    push_line_of(text, "Line ", read)?;
    push_line_of(
        text,
        " gave a record that the same task writes only later, on line ",
        write,
    )?;
    push_words(text, ".\n")
}

/// How many operations and records there are, and whether the end is there.
fn push_counts(text: &mut Vec<u8>, log: &WholeLog) -> Result<(), AllocError>
    ensures { OnOk result (text.new.items ≡ text.old.items ++ counts_text log.now) }
{
    push_count(text, log.ops.len(), " operations, ")?;
    push_count(text, log.unfinished, " unfinished, ")?;
    push_count(text, log.records, " records, ")?;
    push_count(text, log.read, " of them read")?;
    push_end(text, log.ended)
}
