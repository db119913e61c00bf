//! The words of a line.
ghost use Rattle.std.specs.Prelude.{◌≡◌, IfOk, map};
ghost use Rattle.serde_json.specs.View.{view};
ghost use Rattle.record_words.specs.Words.{numbers_at, numbers_in, numbers_of, words_in};
ghost use Rattle.record_words.specs.Words.{words_of};

use read_document::{DocError, items_in, read_value};
use serde_json::Value;
use std::alloc::{AllocError, Global};

/// The words of a line of a log, whose record stands at this key.
pub(crate) fn words_of(alloc: Global, key: &str, line: &[u8]) -> Result<Vec<u64>, AllocError>
    ensures { IfOk result (λ words. words.items ≡ words_of key.now line.now) }
{
    match read_value(alloc, line) {
        Ok(value) => words_in(alloc, key, &value),
        Err(DocError::NoMemory) => Err(AllocError),
        Err(_) => Ok(Vec::new(alloc)),
    }
}

fn words_in(alloc: Global, key: &str, value: &Value) -> Result<Vec<u64>, AllocError>
    ensures { IfOk result (λ words. words.items ≡ words_in key.now (view value.now)) }
{
    let words = numbers_at(alloc, "words", value)?;
    if words.is_empty() {
        numbers_at(alloc, key, value)
    } else {
        Ok(words)
    }
}

fn numbers_at(alloc: Global, key: &str, value: &Value) -> Result<Vec<u64>, AllocError>
    ensures { IfOk result (λ words. words.items ≡ numbers_at key.now (view value.now)) }
{
    match value.get(key) {
        Some(found) => numbers_in(alloc, found),
        None => Ok(Vec::new(alloc)),
    }
}

/// The numbers of an array, or one number.
fn numbers_in(alloc: Global, value: &Value) -> Result<Vec<u64>, AllocError>
    ensures { IfOk result (λ words. words.items ≡ numbers_in (view value.now)) }
{
    match (items_in(value), value.as_u64()) {
        (Some(items), _) => numbers_of(alloc, items),
        (None, Some(number)) => Vec::from_slice(alloc, &[number]),
        (None, None) => Ok(Vec::new(alloc)),
    }
}

/// Those in front of the first value that is no number.
fn numbers_of(alloc: Global, items: &[Value]) -> Result<Vec<u64>, AllocError>
    ensures { IfOk result (λ words. words.items ≡ numbers_of (map view items.now)) }
{
    let mut numbers = Vec::new(alloc);
    for item in items {
        match item.as_u64() {
            Some(number) => numbers.push(number)?,
            None => return Ok(numbers),
        }
    }
    Ok(numbers)
}
