//! An operation of a history.
ghost use Rattle.std.specs.Prelude.{◌≡◌, codes, option_and_then, option_map};
ghost use Rattle.serde_json.specs.Find.{as_str, get};
ghost use Rattle.serde_json.specs.View.{view};
ghost use Rattle.history_fields.specs.Fields.{kind_named};
ghost use Rattle.read_document.specs.Values.{as_whole, optional};
ghost use Rattle.read_history.specs.Shapes.{as_band, as_op};

use crate::shape::{Shape, band_in};
use history_core::{Band, Kind, Op};
use history_fields::kind_named;
use read_document::{optional_number, place_in};
use serde_json::Value;
use std::alloc::{AllocError, Global};

impl Shape for Op<Band> {
    ghost shape = { as_op };

    fn read(_alloc: Global, value: &Value) -> Result<Option<Op<Band>>, AllocError> {
        Ok(op_in(value))
    }
}

fn op_in(value: &Value) -> Option<Op<Band>>
    ensures { result ≡ as_op (view value.now) }
{
    Some(Op {
        who: actor_of(value)?,
        kind: kind_of(value)?,
        starts: beginning_of(value)?,
        ends: optional_number(value.get("end"))?,
        item: optional_band(value.get("record"))?,
    })
}

fn actor_of(value: &Value) -> Option<usize>
    ensures { result ≡ option_and_then as_whole (get (codes "who") (view value.now)) }
{
    place_in(value.get("who")?)
}

fn kind_of(value: &Value) -> Option<Kind>
    ensures { result ≡ option_and_then kind_named (option_and_then as_str (get (codes "kind") (view value.now))) }
{
    kind_named(value.get("kind")?.as_str()?)
}

fn beginning_of(value: &Value) -> Option<u64>
    ensures { result ≡ option_and_then as_whole (get (codes "begin") (view value.now)) }
{
    value.get("begin")?.as_u64()
}

/// A record that may be missing, or null.
fn optional_band(value: Option<&Value>) -> Option<Option<Band>>
    ensures { result ≡ optional as_band (option_map (λ v. view v.now) value.entry) }
{
    match value {
        None | Some(Value::Null) => Some(None),
        Some(value) => match band_in(value) {
            Some(band) => Some(Some(band)),
            None => None,
        },
    }
}
