//! From bytes to a JSON value, and its kind.
ghost use Rattle.std.specs.Prelude.{◌≡◌};
ghost use Rattle.serde_json.specs.View.{view};
ghost use Rattle.read_document.specs.Document.{is_kind, value_of};
ghost use Rattle.read_document.specs.Refusals.{Gives};

use crate::DocError;
use serde_json::Value;
use std::alloc::Global;

const MAX_BYTES: usize = 1_048_576;

/// The JSON value that the bytes are.
pub fn read_value(alloc: Global, bytes: &[u8]) -> Result<Value, DocError>
    ensures { Gives view result (value_of bytes.now) }
{
    if MAX_BYTES < bytes.len() {
        return Err(DocError::Long);
    }
    match Value::from_slice(alloc, bytes) {
        Ok(value) => Ok(value),
        Err(e) if e.is_memory() => Err(DocError::NoMemory),
        Err(_) => Err(DocError::NotJson),
    }
}

/// Whether a document is of the kind of this name.
pub fn is_kind(value: &Value, name: &str) -> bool
    ensures { result ≡ is_kind name.now (view value.now) }
{
    match value.get("kind") {
        Some(Value::String(kind)) => name == kind.as_str(),
        _ => false,
    }
}
