//! Lines of a text, and their words.
ghost use Rattle.std.specs.Prelude.{◌≡◌, IfOk, option_map, slice_get};
ghost use Rattle.text_lines.specs.Splits.{lines_of};
ghost use Rattle.text_lines.specs.Words.{text_in, told};
ghost use Rattle.record_words.specs.Origins.{all_words, line_in, opening_line, words_at};
ghost use Rattle.record_words.specs.Words.{words_of};

use crate::words::words_of;
use history_core::Items;
use std::alloc::{AllocError, Global};
use text_lines::{PackedText, line_of, split_line};

/// A line by its number, the header's is 1, with its words.
#[derive(Drop)]
pub struct LineWords {
    pub line: usize,
    pub words: Items<u64>,
}

/// The words of the header, if that is asked for, and of the operations at these places.
pub(crate) fn all_words(
    alloc: Global,
    packed: &PackedText,
    opening: bool,
    places: &[usize],
) -> Result<Vec<LineWords>, AllocError>
    ensures { IfOk result (λ lines. lines.items ≡ all_words (text_in packed.now) opening places.now) }
{
    let mut lines = opening_line(alloc, packed, opening)?;
    for place in places {
        let next = words_at(alloc, packed, *place)?;
        lines.push(next)?;
    }
    Ok(lines)
}

fn opening_line(
    alloc: Global,
    packed: &PackedText,
    opening: bool,
) -> Result<Vec<LineWords>, AllocError>
    ensures { IfOk result (λ lines. lines.items ≡ opening_line opening (text_in packed.now)) }
{
    let mut lines = Vec::new(alloc);
    if opening {
        let words = line_words(alloc, packed, "opening", 0)?;
        lines.push(LineWords { line: 1, words })?;
    }
    Ok(lines)
}

/// The words of the operation at a place.
pub(crate) fn words_at(
    alloc: Global,
    packed: &PackedText,
    place: usize,
) -> Result<LineWords, AllocError>
    ensures { IfOk result (λ line. line ≡ words_at (text_in packed.now) place) }
{
    let line = line_of(place)?;
    let words = line_words(alloc, packed, "record", line - 1)?;
    Ok(LineWords { line, words })
}

/// The words of the line with so many lines in front of it, whose record stands at this key.
fn line_words(
    alloc: Global,
    packed: &PackedText,
    key: &str,
    index: usize,
) -> Result<Items<u64>, AllocError>
    ensures { IfOk result (λ words. words ≡ words_of key.now (line_in (text_in packed.now) index)) }
{
    let text = line_in(alloc, packed, index)?;
    let words = words_of(alloc, key, text.as_slice())?;
    Ok(Items::new(words))
}

/// The line with so many lines in front of it; an empty one behind the last.
fn line_in(alloc: Global, packed: &PackedText, index: usize) -> Result<Vec<u8>, AllocError>
    ensures { IfOk result (λ line. line.items ≡ line_in (text_in packed.now) index) }
{
    match nth_line(packed.codes.as_slice(), index) {
        Some(own) => told_line(alloc, packed, own),
        None => Ok(Vec::new(alloc)),
    }
}

fn told_line(alloc: Global, packed: &PackedText, codes: &[u8]) -> Result<Vec<u8>, AllocError>
    ensures { IfOk result (λ line. line.items ≡ told packed.now.packed codes.now) }
{
    let mut line = Vec::new(alloc);
    packed.tell(&mut line, codes)?;
    Ok(line)
}

fn nth_line(bytes: &[u8], index: usize) -> Option<&[u8]>
    ensures { option_map (λ line. line.now) result ≡ slice_get (lines_of bytes.now) index }
{
    let mut rest = bytes;
    let mut left = index;
    'lines: while let Some((own, behind)) = split_line(rest) {
        if left == 0 {
            return Some(own);
        }
        left -= 1;
        rest = behind;
    }
    None
}
