//! The words that codes stand for.
ghost use Rattle.std.specs.Prelude.{◌≡◌, ◌++◌, ◌<◌, true, OnOk};
ghost use Rattle.text_lines.specs.Words.{pair, phrase, told, word};

use std::alloc::AllocError;

/// The first code of two digits.
pub(crate) const PAIRS: u8 = 128;

/// The first code of a phrase.
pub(crate) const PHRASES: u8 = 228;

/// How many phrases there are.
pub(crate) const COUNT: u8 = 20;

/// The phrase of this number; of a number without one the last.
pub(crate) fn phrase(number: u8) -> &'static str
    ensures { result.now ≡ phrase number }
{
    match number {
        0 => "{\"who\":",
        1 => ",\"kind\":\"write\",\"begin\":",
        2 => ",\"kind\":\"read\",\"begin\":",
        3 => ",\"kind\":\"cas\",\"begin\":",
        4 => ",\"kind\":\"",
        5 => "\",\"begin\":",
        6 => ",\"end\":",
        7 => ",\"record\":",
        8 => ",\"record\":[",
        9 => ",\"from\":",
        10 => ",\"swapped\":",
        11 => ",\"found\":",
        12 => ",\"key\":\"",
        13 => "null",
        14 => ", \"kind\": \"write\", \"begin\":",
        15 => ", \"kind\": \"read\", \"begin\":",
        16 => ", \"kind\": \"",
        17 => ", \"end\":",
        18 => ", \"record\":",
        _ => "]}",
    }
}

/// Adds what these codes stand for.
pub(crate) fn push_told(text: &mut Vec<u8>, packed: bool, codes: &[u8]) -> Result<(), AllocError>
    ensures { OnOk result (text.new.items ≡ text.old.items ++ told packed codes.now) }
{
    if packed {
        push_words(text, codes)
    } else {
        text.extend_from_slice(codes)
    }
}

fn push_words(text: &mut Vec<u8>, codes: &[u8]) -> Result<(), AllocError>
    ensures { OnOk result (text.new.items ≡ text.old.items ++ told true codes.now) }
{
    for code in codes {
        push_word(text, *code)?;
    }
    Ok(())
}

fn push_word(text: &mut Vec<u8>, code: u8) -> Result<(), AllocError>
    ensures { OnOk result (text.new.items ≡ text.old.items ++ word true code) }
{
    if code < PAIRS {
        text.push(code)?;
        Ok(())
    } else if code < PHRASES {
        push_pair(text, code - PAIRS)
    } else {
        text.extend_from_slice(phrase(code - PHRASES).as_bytes())
    }
}

/// Adds two digits.
fn push_pair(text: &mut Vec<u8>, number: u8) -> Result<(), AllocError>
    requires { number < 100 }
    ensures { OnOk result (text.new.items ≡ text.old.items ++ pair number) }
{
    text.extend_from_slice(&[b'0' + number / 10, b'0' + number % 10])
}
