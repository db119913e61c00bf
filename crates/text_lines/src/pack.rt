//! From bytes to codes.
ghost use Rattle.std.specs.Prelude.{◌≡◌, ◌++◌, ◌<◌, ◌≤◌, ◌∷◌, true, IfOk, IfSome, length};
ghost use Rattle.text_lines.specs.Words.{BeginsWith, told};

use crate::word::{COUNT, PAIRS, PHRASES, phrase};
use std::alloc::AllocError;

/// Adds codes for the front of the bytes, up to the first that isn't ASCII, and gives what is left.
pub(crate) fn push_codes<'a>(codes: &mut Vec<u8>, bytes: &'a [u8]) -> Result<&'a [u8], AllocError>
    ensures { IfOk result (λ rest. told true codes.new.items ++ rest.now ≡ told true codes.old.items ++ bytes.now) }
{
    let mut rest = bytes;
    'bytes: while let Some((code, behind)) = first_code(rest) {
        codes.push(code)?;
        rest = behind;
    }
    Ok(rest)
}

/// A code with which the bytes begin, and what stands behind it; nothing of no bytes, and of one that isn't ASCII.
fn first_code(bytes: &[u8]) -> Option<(u8, &[u8])>
    ensures { IfSome result (λ first. BeginsWith bytes.now first.0 first.1.now) }
{
    match first_phrase(bytes) {
        Some(first) => Some(first),
        None => match first_pair(bytes) {
            Some(first) => Some(first),
            None => first_byte(bytes),
        },
    }
}

fn first_phrase(bytes: &[u8]) -> Option<(u8, &[u8])>
    ensures { IfSome result (λ first. BeginsWith bytes.now first.0 first.1.now) }
{
    let number = guess(bytes);
    if number >= COUNT {
        return None;
    }
    match bytes.strip_prefix(phrase(number).as_bytes()) {
        Some(rest) => Some((PHRASES + number, rest)),
        None => None,
    }
}

fn first_pair(bytes: &[u8]) -> Option<(u8, &[u8])>
    ensures { IfSome result (λ first. BeginsWith bytes.now first.0 first.1.now) }
{
    match bytes {
        [tens, ones, rest @ ..] if tens.is_ascii_digit() && ones.is_ascii_digit() => {
            Some((PAIRS + (*tens - b'0') * 10 + (*ones - b'0'), rest))
        }
        _ => None,
    }
}

fn first_byte(bytes: &[u8]) -> Option<(u8, &[u8])>
    ensures { IfSome result (λ first. BeginsWith bytes.now first.0 first.1.now) }
{
    match bytes.split_first() {
        Some((byte, rest)) if *byte < PAIRS => Some((*byte, rest)),
        _ => None,
    }
}

/// The number of the phrase that the bytes may begin with.
fn guess(bytes: &[u8]) -> u8 {
    match byte_at(bytes, 0) {
        b'{' => 0,
        b',' => guess_behind(bytes),
        b'"' => 5,
        b'n' => 13,
        b']' => 19,
        _ => COUNT,
    }
}

/// The same where they begin with a comma.
fn guess_behind(bytes: &[u8]) -> u8 {
    match byte_at(bytes, 2) {
        b'k' => guess_kind(bytes),
        b'e' => 6,
        b'r' => if byte_at(bytes, 10) == b'[' { 8 } else { 7 },
        b'f' => if byte_at(bytes, 3) == b'r' { 9 } else { 11 },
        b's' => 10,
        b'"' => guess_spaced(bytes),
        _ => COUNT,
    }
}

/// The same where a kind or key may follow.
fn guess_kind(bytes: &[u8]) -> u8 {
    if byte_at(bytes, 3) == b'e' {
        return 12;
    }
    match byte_at(bytes, 9) {
        b'w' => 1,
        b'r' => if byte_at(bytes, 11) == b'a' { 2 } else { 4 },
        b'c' => 3,
        _ => 4,
    }
}

/// The same where a space stands behind the comma.
fn guess_spaced(bytes: &[u8]) -> u8 {
    match byte_at(bytes, 3) {
        b'k' => match byte_at(bytes, 11) {
            b'w' => 14,
            b'r' => if byte_at(bytes, 13) == b'a' { 15 } else { 16 },
            _ => 16,
        },
        b'e' => 17,
        b'r' => 18,
        _ => COUNT,
    }
}

/// The byte at a place, 0 behind the end.
fn byte_at(bytes: &[u8], place: usize) -> u8 {
    bytes.get(place).copied().unwrap_or(0)
}
