//! The header of a log.
ghost use Rattle.std.specs.Prelude.{◌≡◌, true, string_bytes};
ghost use Rattle.std.specs.Option.{option_map_or};
ghost use Rattle.serde_json.specs.View.{view};
ghost use Rattle.read_document.specs.declared.key.Key.TheVariants.{Opening};
ghost use Rattle.history_fields.specs.Fields.{limit_in_range};
ghost use Rattle.read_document.specs.Records.{record_text};
ghost use Rattle.read_document.specs.Refusals.{field, Gives};
ghost use Rattle.read_line.specs.Lines.{head_in, head_of, head_seen};

use crate::line::LogHeader;
use history_fields::limit_in_range;
use read_document::{
    DocError, Key, is_kind, must, optional_number, read_value, record_text, required, shaped,
};
use serde_json::Value;
use std::alloc::Global;

/// What the header of a log says, or its first refusal with its first key. A line of another kind is refused.
#[tactic(auto, unfolding(crate::specs::Lines::head_of))]
pub fn read_header(alloc: Global, bytes: &[u8]) -> Result<LogHeader, DocError>
    ensures { Gives head_seen result (head_of bytes.now) }
{
    let value = read_value(alloc, bytes)?;
    if is_kind(&value, "lines") {
        header_in(alloc, &value)
    } else {
        Err(DocError::Kind)
    }
}

#[tactic(auto, unfolding(crate::specs::Lines::head_in))]
fn header_in(alloc: Global, value: &Value) -> Result<LogHeader, DocError>
    ensures { Gives head_seen result (head_in (view value.now)) }
{
    required(value, &[Key::Opening])?;
    let opening = opening_in(alloc, value)?;
    let limit = shaped(Key::Limit, optional_number(value.get("limit")))?;
    must(may_limit(limit), DocError::Range(Key::Limit))?;
    Ok(LogHeader { opening, limit })
}

fn opening_in(alloc: Global, value: &Value) -> Result<String, DocError>
    ensures { Gives string_bytes result (field Opening record_text (view value.now)) }
{
    match value.get("opening") {
        Some(found) => match record_text(alloc, found)? {
            Some(text) => Ok(text),
            None => Err(DocError::Shape(Key::Opening)),
        },
        None => Err(DocError::Shape(Key::Opening)),
    }
}

fn may_limit(limit: Option<u64>) -> bool
    ensures { result ≡ option_map_or limit_in_range limit true }
{
    match limit {
        Some(limit) => limit_in_range(limit),
        None => true,
    }
}
