//! What is said of the words of a record.
ghost use Rattle.std.specs.Prelude.{◌≡◌, ◌++◌, codes, IfOk, OnOk};
ghost use Rattle.std.specs.Fmt.{decimal};
ghost use Rattle.text_lines.specs.Words.{text_in};
ghost use Rattle.record_words.specs.Origins.{gap_text, has, line_name, lines_with, names_from, names_text};
ghost use Rattle.record_words.specs.Origins.{origins_text, told_of, word_text, words_text};

use crate::line::{LineWords, all_words, words_at};
use itoa::Buffer;
use std::alloc::{AllocError, Global};
use text_lines::PackedText;

/// Adds of which lines the words of the operation at a place are, if it has several: the writes at these places, and
/// the header if that is asked for, are looked at.
pub fn push_origins(
    alloc: Global,
    text: &mut Vec<u8>,
    packed: &PackedText,
    opening: bool,
    read: usize,
    writes: &[usize],
) -> Result<(), AllocError>
    ensures { OnOk result (text.new.items
        ≡ text.old.items ++ origins_text (text_in packed.now) opening read writes.now) }
{
    let own = words_at(alloc, packed, read)?;
    let lines = all_words(alloc, packed, opening, writes)?;
    push_told(alloc, text, lines.as_slice(), own.words.as_slice())
}

#[tactic(auto, using(std::proofs::Common::append_assoc))]
fn push_told(
    alloc: Global,
    text: &mut Vec<u8>,
    lines: &[LineWords],
    words: &[u64],
) -> Result<(), AllocError>
    ensures { OnOk result (text.new.items ≡ text.old.items ++ told_of lines.now words.now) }
{
    if words.len() < 2 {
        Ok(())
    } else {
        push_words(alloc, text, lines, words)?;
        text.extend_from_slice(b".\n")
    }
}

fn push_words(
    alloc: Global,
    text: &mut Vec<u8>,
    lines: &[LineWords],
    words: &[u64],
) -> Result<(), AllocError>
    ensures { OnOk result (text.new.items ≡ text.old.items ++ words_text lines.now 0 words.now) }
{
    for place in 0..words.len() {
        push_word(alloc, text, lines, place, words[place])?;
    }
    Ok(())
}

/// A word, and the lines that have it.
#[tactic(auto, using(std::proofs::Common::append_assoc))]
fn push_word(
    alloc: Global,
    text: &mut Vec<u8>,
    lines: &[LineWords],
    place: usize,
    word: u64,
) -> Result<(), AllocError>
    ensures { OnOk result (text.new.items ≡ text.old.items ++ word_text lines.now place word) }
{
    let found = lines_with(alloc, lines, place, word)?;
    push_number(text, gap("Its words: ", place), word)?;
    push_names(text, found.as_slice())
}

/// What stands in front of the first of several, or of one behind others.
const fn gap(first: &'static str, behind: usize) -> &'static str
    ensures { result.now ≡ gap_text first.now behind }
{
    if behind == 0 { first } else { ", " }
}

/// Adds words and a number behind them.
#[tactic(auto, using(std::proofs::Common::append_assoc))]
fn push_number(text: &mut Vec<u8>, words: &str, number: u64) -> Result<(), AllocError>
    ensures { OnOk result (text.new.items ≡ text.old.items ++ (words.now ++ decimal number)) }
{
    let mut buffer = Buffer::new();
    text.extend_from_slice(words.as_bytes())?;
    text.extend_from_slice(buffer.format(number).as_bytes())
}

#[tactic(auto, using(std::proofs::Common::append_assoc))]
fn push_names(text: &mut Vec<u8>, lines: &[usize]) -> Result<(), AllocError>
    ensures { OnOk result (text.new.items ≡ text.old.items ++ names_text lines.now) }
{
    if lines.is_empty() {
        text.extend_from_slice(b" (no record that it could see)")
    } else {
        push_all_names(text, lines)?;
        text.extend_from_slice(b")")
    }
}

fn push_all_names(text: &mut Vec<u8>, lines: &[usize]) -> Result<(), AllocError>
    ensures { OnOk result (text.new.items ≡ text.old.items ++ names_from 0 lines.now) }
{
    for number in 0..lines.len() {
        push_name(text, number, lines[number])?;
    }
    Ok(())
}

#[tactic(auto, using(std::proofs::Common::append_assoc))]
fn push_name(text: &mut Vec<u8>, number: usize, line: usize) -> Result<(), AllocError>
    ensures { OnOk result (text.new.items ≡ text.old.items ++ (gap_text (codes " (") number ++ line_name line)) }
{
    text.extend_from_slice(gap(" (", number).as_bytes())?;
    if line == 1 {
        text.extend_from_slice(b"the opening")
    } else {
        push_number(text, "line ", line as u64)
    }
}

/// The lines that have a word at a place.
fn lines_with(
    alloc: Global,
    lines: &[LineWords],
    place: usize,
    word: u64,
) -> Result<Vec<usize>, AllocError>
    ensures { IfOk result (λ found. found.items ≡ lines_with lines.now place word) }
{
    let mut found = Vec::new(alloc);
    for line in lines {
        if has(place, word, line) {
            found.push(line.line)?;
        }
    }
    Ok(found)
}

fn has(place: usize, word: u64, line: &LineWords) -> bool
    ensures { result ≡ has place word line.now }
{
    match line.words.as_slice().get(place) {
        Some(own) => *own == word,
        None => false,
    }
}
