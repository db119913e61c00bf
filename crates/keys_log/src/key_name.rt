//! The names by which keys are looked up.
ghost use Rattle.std.specs.Prelude.{◌≡◌, option_map, string_bytes, IfOk};
ghost use Rattle.keys_log.specs.inner.KeyReadings.{name_of};

use std::alloc::{AllocError, Global};

/// The name of a key. No two keys have the same.
pub(crate) fn name_of(alloc: Global, key: &Option<String>) -> Result<String, AllocError>
    ensures { IfOk result (λ name. string_bytes name ≡ name_of (option_map string_bytes key.now)) }
{
    let mut name = String::new(alloc);
    if let Some(text) = key {
        name.push_str("=")?;
        name.push_str(text.as_str())?;
    }
    Ok(name)
}

/// The same key.
pub(crate) fn copied(alloc: Global, key: &Option<String>) -> Result<Option<String>, AllocError>
    ensures { IfOk result (λ copy. option_map string_bytes copy ≡ option_map string_bytes key.now) }
{
    match key {
        Some(text) => Ok(Some(String::from_str(alloc, text.as_str())?)),
        None => Ok(None),
    }
}
