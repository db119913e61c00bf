//! What a process is to do, and its plan.
ghost use Rattle.std.specs.Prelude.{◌≡◌};
ghost use Rattle.serde_json.specs.View.{view};
ghost use Rattle.read_history.specs.Shapes.{as_plan, as_wish};

use crate::shape::{Shape, band_in, list_of};
use history_core::{Band, Items, Wish};
use serde_json::Value;
use std::alloc::{AllocError, Global};

impl Shape for Wish<Band> {
    ghost shape = { as_wish };

    fn read(_alloc: Global, value: &Value) -> Result<Option<Wish<Band>>, AllocError> {
        Ok(wish_in(value))
    }
}

/// The text `read`, or a record to write.
fn wish_in(value: &Value) -> Option<Wish<Band>>
    ensures { result ≡ as_wish (view value.now) }
{
    match value.as_str() {
        Some("read") => Some(Wish::Read),
        Some(_) => None,
        None => Some(Wish::Write(band_in(value)?)),
    }
}

impl Shape for Items<Wish<Band>> {
    ghost shape = { as_plan };

    fn read(alloc: Global, value: &Value) -> Result<Option<Items<Wish<Band>>>, AllocError> {
        match list_of(alloc, value)? {
            Some(wishes) => Ok(Some(Items::new(wishes))),
            None => Ok(None),
        }
    }
}
