//! Whether the header of a log says that its records repeat.
ghost use Rattle.std.specs.Prelude.{◌≡◌, IfOk, option_map};
ghost use Rattle.text_lines.specs.Words.{text_in};
ghost use Rattle.serde_json.specs.View.{view};
ghost use Rattle.read_line.specs.Repeats.{has_repeats, is_true, repeats_in, says_repeats};

use read_document::{DocError, is_kind, read_value};
use serde_json::Value;
use std::alloc::{AllocError, Global};
use text_lines::PackedText;

/// Whether the first line of a log is the header of one whose records repeat.
pub fn has_repeats(alloc: Global, text: &PackedText) -> Result<bool, AllocError>
    ensures { IfOk result (λ has. has ≡ has_repeats (text_in text.now)) }
{
    if text.codes.is_empty() {
        return Ok(false);
    }
    let mut first = Vec::new(alloc);
    text.next_line(&mut first, text.codes.as_slice())?;
    says_repeats(alloc, first.as_slice())
}

/// Whether a line is the header of a log whose records repeat.
fn says_repeats(alloc: Global, line: &[u8]) -> Result<bool, AllocError>
    ensures { IfOk result (λ has. has ≡ says_repeats line.now) }
{
    match read_value(alloc, line) {
        Ok(value) => Ok(repeats_in(&value)),
        Err(DocError::NoMemory) => Err(AllocError),
        Err(_) => Ok(false),
    }
}

fn repeats_in(value: &Value) -> bool
    ensures { result ≡ repeats_in (view value.now) }
{
    is_kind(value, "lines") && is_true(value.get("repeats"))
}

fn is_true(value: Option<&Value>) -> bool
    ensures { result ≡ is_true (option_map (λ v. view v.now) value.entry) }
{
    match value {
        Some(Value::Bool(told)) => *told,
        _ => false,
    }
}
