//! The text of a record.
ghost use Rattle.std.specs.Prelude.{◌≡◌, map, option_map, IfOk, string_bytes};
ghost use Rattle.serde_json.specs.View.{view};
ghost use Rattle.read_document.specs.Records.{are_numbers, is_kept, record_text};

use crate::items_in;
use serde_json::Value;
use std::alloc::{AllocError, Global};

/// The greatest number of numbers in a record.
const MAX_NUMBERS: usize = 64;

/// The text of the record that a value is, if it is one.
pub fn record_text(alloc: Global, value: &Value) -> Result<Option<String>, AllocError>
    ensures { IfOk result (λ found. option_map string_bytes found ≡ record_text (view value.now)) }
{
    if is_kept(value) {
        return Ok(Some(value.to_string(alloc)?));
    }
    match value.as_u64() {
        Some(number) => Ok(Some(format!(in alloc; "[{number}]")?)),
        None => Ok(None),
    }
}

/// Whether a value is a text or an array of numbers, whose record has the value's own text.
fn is_kept(value: &Value) -> bool
    ensures { result ≡ is_kept (view value.now) }
{
    match items_in(value) {
        Some(items) => are_numbers(items),
        None => value.as_str().is_some(),
    }
}

fn are_numbers(items: &[Value]) -> bool
    ensures { result ≡ are_numbers (map view items.now) }
{
    if items.is_empty() || MAX_NUMBERS < items.len() {
        return false;
    }
    for item in items {
        if item.as_u64().is_none() {
            return false;
        }
    }
    true
}
