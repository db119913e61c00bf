//! Words, and numbers behind words.
ghost use Rattle.std.specs.Prelude.{◌≡◌, ◌++◌, OnOk};
ghost use Rattle.reason_sentences.specs.Numbers.{number_text};
ghost use Rattle.text_lines.specs.Places.{line_at};

use itoa::Buffer;
use std::alloc::AllocError;
use text_lines::line_of;

/// Adds words.
pub fn push_words(text: &mut Vec<u8>, words: &str) -> Result<(), AllocError>
    ensures { OnOk result (text.new.items ≡ text.old.items ++ words.now) }
{
    text.extend_from_slice(words.as_bytes())
}

pub fn push_line_of(text: &mut Vec<u8>, words: &str, place: usize) -> Result<(), AllocError>
    ensures { OnOk result (text.new.items ≡ text.old.items ++ number_text words.now (line_at place)) }
{
    let line = line_of(place)?;
    push_u64(text, words, line as u64)
}

/// Adds words and a number behind them.
#[tactic(auto, using(std::proofs::Common::append_assoc))]
pub fn push_u64(text: &mut Vec<u8>, words: &str, number: u64) -> Result<(), AllocError>
    ensures { OnOk result (text.new.items ≡ text.old.items ++ number_text words.now number) }
{
    let mut buffer = Buffer::new();
    text.extend_from_slice(words.as_bytes())?;
    text.extend_from_slice(buffer.format(number).as_bytes())
}
