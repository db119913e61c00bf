//! The shape of a value, and those of numbers, records and arrays.
ghost use Rattle.std.specs.Prelude.{◌≡◌, ◌++◌, [], ◌∷◌, if◌then◌else◌, Option, Some, None, map, option_map, IfOk};
ghost use Rattle.serde_json.specs.Data.{Data};
ghost use Rattle.serde_json.specs.View.{view};
ghost use Rattle.read_document.specs.Refusals.{field, Gives};
ghost use Rattle.read_document.specs.Values.{as_whole};
ghost use Rattle.read_history.specs.Shapes.{all_of, as_band, as_list, as_three};

use history_core::Band;
use read_document::{DocError, Key, items_in, place_in};
use serde_json::Value;
use std::alloc::{AllocError, Global};

/// What can be read from one value of a document, where the value has its shape.
pub trait Shape: Sized + Drop {
    ghost shape: { Data → Option Self };

    fn read(alloc: Global, value: &Value) -> Result<Option<Self>, AllocError>
        ensures { IfOk result (λ found. found ≡ shape (view value.now)) };
}

impl Shape for u64 {
    ghost shape = { as_whole };

    fn read(_alloc: Global, value: &Value) -> Result<Option<u64>, AllocError> {
        Ok(value.as_u64())
    }
}

impl Shape for usize {
    ghost shape = { as_whole };

    fn read(_alloc: Global, value: &Value) -> Result<Option<usize>, AllocError> {
        Ok(place_in(value))
    }
}

impl Shape for Band {
    ghost shape = { as_band };

    fn read(_alloc: Global, value: &Value) -> Result<Option<Band>, AllocError> {
        Ok(band_in(value))
    }
}

pub fn band_in(value: &Value) -> Option<Band>
    ensures { result ≡ as_band (view value.now) }
{
    three(items_in(value)?)
}

fn three(items: &[Value]) -> Option<Band>
    ensures { result ≡ as_three (map view items.now) }
{
    let [lo, now, hi] = items else {
        return None;
    };
    Some(Band {
        lo: lo.as_u64()?,
        now: now.as_u64()?,
        hi: hi.as_u64()?,
    })
}

/// What the key's value stands for.
pub fn field<T: Shape>(alloc: Global, value: &Value, key: Key) -> Result<T, DocError>
    ensures { Gives (λ x. x) result (field key T.shape (view value.now)) }
{
    match value.get(key.name()) {
        Some(found) => match T::read(alloc, found)? {
            Some(x) => Ok(x),
            None => Err(DocError::Shape(key)),
        },
        None => Err(DocError::Shape(key)),
    }
}

/// The values of the array under the key.
pub fn list_field<T: Shape>(alloc: Global, value: &Value, key: Key) -> Result<Vec<T>, DocError>
    ensures { Gives (λ v. v.items) result (field key (as_list T.shape) (view value.now)) }
{
    match value.get(key.name()) {
        Some(found) => match list_of(alloc, found)? {
            Some(xs) => Ok(xs),
            None => Err(DocError::Shape(key)),
        },
        None => Err(DocError::Shape(key)),
    }
}

/// The values of an array, each of its shape.
pub fn list_of<T: Shape>(alloc: Global, value: &Value) -> Result<Option<Vec<T>>, AllocError>
    ensures { IfOk result (λ found. option_map (λ v. v.items) found
        ≡ as_list T.shape (view value.now)) }
{
    match items_in(value) {
        Some(values) => all_of(alloc, values),
        None => Ok(None),
    }
}

fn all_of<T: Shape>(alloc: Global, values: &[Value]) -> Result<Option<Vec<T>>, AllocError>
    ensures { IfOk result (λ found. option_map (λ v. v.items) found
        ≡ all_of T.shape (map view values.now)) }
{
    let mut found = Vec::with_capacity(alloc, values.len())?;
    for item in values {
        if !adds(alloc, item, &mut found)? {
            return Ok(None);
        }
    }
    Ok(Some(found))
}

/// Adds what the value stands for, and says whether it has the shape.
fn adds<T: Shape>(alloc: Global, value: &Value, found: &mut Vec<T>) -> Result<bool, AllocError>
    ensures { IfOk result (λ fits. (if fits then Some found.new.items else None)
        ≡ option_map (λ x. found.old.items ++ x ∷ []) (T.shape (view value.now))) }
{
    let Some(x) = T::read(alloc, value)? else {
        return Ok(false);
    };
    found.push(x)?;
    Ok(true)
}
