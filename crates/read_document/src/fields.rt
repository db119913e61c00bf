//! The steps by which each kind of document is read.
ghost use Rattle.std.specs.Prelude.{◌≡◌};
ghost use Rattle.serde_json.specs.View.{view};
ghost use Rattle.read_document.specs.Refusals.{field, must, required, some_or};
ghost use Rattle.read_document.specs.Values.{as_whole};

use crate::{DocError, Key};
use serde_json::Value;

/// The test holds, or else the refusal.
pub fn must(test: bool, refusal: DocError) -> Result<(), DocError>
    ensures { result ≡ must test refusal }
{
    if test { Ok(()) } else { Err(refusal) }
}

/// Each key is there, or the first that is missing.
pub fn required(value: &Value, keys: &[Key]) -> Result<(), DocError>
    ensures { result ≡ required keys.now (view value.now) }
{
    for key in keys {
        if value.get(key.name()).is_none() {
            return Err(DocError::Missing(*key));
        }
    }
    Ok(())
}

/// What was found under the key, or the refusal that it has another shape.
pub fn shaped<T: Drop>(key: Key, found: Option<T>) -> Result<T, DocError>
    ensures { result ≡ some_or (DocError.Shape key) found }
{
    match found {
        Some(x) => Ok(x),
        None => Err(DocError::Shape(key)),
    }
}

/// The whole number under the key.
pub fn number_field(value: &Value, key: Key) -> Result<u64, DocError>
    ensures { result ≡ field key as_whole (view value.now) }
{
    match value.get(key.name()) {
        Some(found) => shaped(key, found.as_u64()),
        None => Err(DocError::Shape(key)),
    }
}
