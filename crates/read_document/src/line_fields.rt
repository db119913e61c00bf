//! Fields of the lines of a log, whether its records repeat or not.
ghost use Rattle.std.specs.Prelude.{option_map, string_bytes};
ghost use Rattle.serde_json.specs.View.{view};
ghost use Rattle.read_document.specs.LineFields.{done_in, key_in, record_in, text_at};
ghost use Rattle.read_document.specs.Refusals.{Gives};

use crate::fields::shaped;
use crate::record::record_text;
use crate::value::place_in;
use crate::{DocError, Key};
use serde_json::Value;
use std::alloc::Global;

/// The number of operations that the end of a log says.
#[tactic(auto, unfolding(crate::specs::LineFields::done_in))]
pub fn done_in(value: &Value) -> Result<usize, DocError>
    ensures { Gives (λ n. n) result (done_in (view value.now)) }
{
    match value.get(Key::Ops.name()) {
        Some(found) => shaped(Key::Ops, place_in(found)),
        None => Err(DocError::Missing(Key::Ops)),
    }
}

/// The text of the record, which may be null.
pub fn record_in(alloc: Global, value: &Value) -> Result<Option<String>, DocError>
    ensures { Gives (option_map string_bytes) result (record_in (view value.now)) }
{
    text_at(alloc, value, Key::Record)
}

/// The text of the key, which may be missing or null.
pub fn key_in(alloc: Global, value: &Value) -> Result<Option<String>, DocError>
    ensures { Gives (option_map string_bytes) result (key_in (view value.now)) }
{
    text_at(alloc, value, Key::Key)
}

/// The text of the record under a key, where it is neither missing nor null.
fn text_at(alloc: Global, value: &Value, key: Key) -> Result<Option<String>, DocError>
    ensures { Gives (option_map string_bytes) result (text_at key (view value.now)) }
{
    match value.get(key.name()) {
        None | Some(Value::Null) => Ok(None),
        Some(found) => match record_text(alloc, found)? {
            None => Err(DocError::Shape(key)),
            text => Ok(text),
        },
    }
}
