//! Values that documents of several kinds have: whole numbers, and the items of an array.
ghost use Rattle.std.specs.Prelude.{◌≡◌, map, option_map};
ghost use Rattle.serde_json.specs.View.{view};
ghost use Rattle.read_document.specs.Values.{as_items, as_whole, optional};

use serde_json::Value;

/// A place, where the value is a whole number.
pub fn place_in(value: &Value) -> Option<usize>
    ensures { result ≡ as_whole (view value.now) }
{
    match value.as_u64() {
        Some(number) => Some(number as usize),
        None => None,
    }
}

/// The items of an array.
#[tactic(auto, using(crate::proofs::ItemLemmas::as_items_seen))]
pub fn items_in(value: &Value) -> Option<&[Value]>
    ensures { option_map (λ s. map view s.now) result ≡ as_items (view value.now) }
{
    match value.as_array() {
        Some(items) => Some(items.as_slice()),
        None => None,
    }
}

/// A number that may be missing, or null.
pub fn optional_number(value: Option<&Value>) -> Option<Option<u64>>
    ensures { result ≡ optional as_whole (option_map (λ v. view v.now) value.entry) }
{
    match value {
        None | Some(Value::Null) => Some(None),
        Some(value) => match value.as_u64() {
            Some(number) => Some(Some(number)),
            None => None,
        },
    }
}
