//! What is asked of an operation by its kind, and what it did.
ghost use Rattle.std.specs.Prelude.{◌≡◌, codes, None, option_map, string_bytes};
ghost use Rattle.serde_json.specs.Find.{as_bool, get};
ghost use Rattle.serde_json.specs.View.{view};
ghost use Rattle.read_document.specs.declared.key.Key.TheVariants.{From, Found, Record, Swapped};
ghost use Rattle.read_document.specs.Refusals.{field, Gives, some_or};
ghost use Rattle.read_document.specs.Values.{optional};
ghost use Rattle.read_document.specs.Records.{record_text};
ghost use Rattle.read_exchange.specs.Exchanges.{asked_in, compared, comparison_in, effect_of, exchanged, may_find};
ghost use Rattle.read_exchange.specs.Exchanges.{is_refused, reads, what_seen, writes};
ghost use Rattle.read_exchange.specs.inner.Seen.{asked_seen, comparison_seen, effect_seen};

use crate::form::Form;
use crate::line::TextExchange;
use read_document::{DocError, Key, must, record_text, required, shaped};
use serde_json::Value;
use std::alloc::Global;

/// What a compare-and-set compared the record with, whether it left its own, if that is known, and what it found, if
/// that is told.
#[derive(Drop)]
pub(crate) struct Compared {
    pub from: String,
    pub swapped: Option<bool>,
    pub found: Option<String>,
}

/// What is asked of an operation by its kind.
#[derive(Drop)]
pub(crate) enum AskedOf {
    /// A write, which may have done nothing or not.
    Writes { maybe: bool },
    Reads,
    Refused,
    Compares(Compared),
}

/// What an operation did.
#[derive(Drop)]
pub(crate) struct Effect {
    pub maybe: bool,
    pub what: TextExchange,
}

pub(crate) fn asked_in(alloc: Global, form: Form, value: &Value) -> Result<AskedOf, DocError>
    ensures { Gives asked_seen result (asked_in form (view value.now)) }
{
    match form {
        Form::Write => Ok(AskedOf::Writes { maybe: false }),
        Form::Maybe => Ok(AskedOf::Writes { maybe: true }),
        Form::Read => Ok(AskedOf::Reads),
        Form::Refused => Ok(AskedOf::Refused),
        Form::Cas => {
            let compared = comparison_in(alloc, value)?;
            Ok(AskedOf::Compares(compared))
        }
    }
}

#[tactic(auto, unfolding(crate::specs::Exchanges::comparison_in))]
fn comparison_in(alloc: Global, value: &Value) -> Result<Compared, DocError>
    ensures { Gives comparison_seen result (comparison_in (view value.now)) }
{
    required(value, &[Key::From, Key::Swapped])?;
    let from = from_in(alloc, value)?;
    let swapped = shaped(Key::Swapped, optional_bool(value.get("swapped")))?;
    let found = found_in(alloc, value)?;
    Ok(Compared {
        from,
        swapped,
        found,
    })
}

fn from_in(alloc: Global, value: &Value) -> Result<String, DocError>
    ensures { Gives string_bytes result (field From record_text (view value.now)) }
{
    match value.get("from") {
        Some(found) => match record_text(alloc, found)? {
            Some(text) => Ok(text),
            None => Err(DocError::Shape(Key::From)),
        },
        None => Err(DocError::Shape(Key::From)),
    }
}

/// The text of the record that was found, which may be missing or null.
fn found_in(alloc: Global, value: &Value) -> Result<Option<String>, DocError>
    ensures { Gives (option_map string_bytes) result
        (some_or (DocError.Shape Found) (optional record_text (get (codes "found") (view value.now)))) }
{
    match value.get("found") {
        None | Some(Value::Null) => Ok(None),
        Some(found) => match record_text(alloc, found)? {
            Some(text) => Ok(Some(text)),
            None => Err(DocError::Shape(Key::Found)),
        },
    }
}

/// What is told, if it is told; null tells nothing.
fn optional_bool(value: Option<&Value>) -> Option<Option<bool>>
    ensures { result ≡ optional as_bool (option_map (λ v. view v.now) value.entry) }
{
    match value {
        None | Some(Value::Null) => Some(None),
        Some(Value::Bool(told)) => Some(Some(*told)),
        Some(_) => None,
    }
}

/// What an operation did that ended so, with this record.
pub(crate) fn effect_of(
    asked: AskedOf,
    end: Option<u64>,
    item: Option<String>,
) -> Result<Effect, DocError>
    ensures { Gives effect_seen result (effect_of (asked_seen asked) end (option_map string_bytes item)) }
{
    match asked {
        AskedOf::Writes { maybe } => write_of(maybe, item),
        AskedOf::Reads => read_of(end, item),
        AskedOf::Refused => refused_of(item),
        AskedOf::Compares(with) => effect_with(with, end, item),
    }
}

/// The record, which has to be there.
fn recorded(item: Option<String>) -> Result<String, DocError>
    ensures { Gives string_bytes result (some_or (DocError.Law Record) (option_map string_bytes item)) }
{
    match item {
        Some(text) => Ok(text),
        None => Err(DocError::Law(Key::Record)),
    }
}

fn write_of(maybe: bool, item: Option<String>) -> Result<Effect, DocError>
    ensures { Gives effect_seen result (effect_of (writes maybe) None (option_map string_bytes item)) }
{
    let text = recorded(item)?;
    Ok(Effect {
        maybe,
        what: TextExchange::Sets(text),
    })
}

fn read_of(end: Option<u64>, item: Option<String>) -> Result<Effect, DocError>
    ensures { Gives effect_seen result (effect_of reads end (option_map string_bytes item)) }
{
    must(item.is_some() || end.is_none(), DocError::Law(Key::Record))?;
    Ok(Effect {
        maybe: false,
        what: TextExchange::Gets(item),
    })
}

/// A refused write tells the record that it saw, also an unfinished one.
fn refused_of(item: Option<String>) -> Result<Effect, DocError>
    ensures { Gives effect_seen result (effect_of is_refused None (option_map string_bytes item)) }
{
    let text = recorded(item)?;
    Ok(Effect {
        maybe: false,
        what: TextExchange::Refuses(text),
    })
}

#[tactic(auto, unfolding(crate::specs::Exchanges::compared))]
fn effect_with(with: Compared, end: Option<u64>, item: Option<String>) -> Result<Effect, DocError>
    ensures { Gives effect_seen result (compared (comparison_seen with) end (option_map string_bytes item)) }
{
    let to = recorded(item)?;
    let maybe = with.swapped.is_none();
    must(maybe || end.is_some(), DocError::Law(Key::Swapped))?;
    must(may_find(&with), DocError::Law(Key::Found))?;
    Ok(Effect {
        maybe,
        what: exchanged(with, to),
    })
}

fn may_find(with: &Compared) -> bool
    ensures { result ≡ may_find with.now.swapped (string_bytes with.now.from) (option_map string_bytes with.now.found) }
{
    match (with.swapped, &with.found) {
        (_, None) => true,
        (Some(false), Some(found)) => with.from.as_str() != found.as_str(),
        _ => false,
    }
}

fn exchanged(with: Compared, to: String) -> TextExchange
    ensures { what_seen result ≡ exchanged with.swapped (string_bytes with.from) (string_bytes to)
        (option_map string_bytes with.found) }
{
    let Compared {
        from,
        swapped,
        found,
    } = with;
    match (swapped, found) {
        (None, _) => TextExchange::Tries { from, to },
        (Some(true), _) => TextExchange::Swaps { from, to },
        (Some(false), None) => TextExchange::Misses { from, to },
        (Some(false), Some(found)) => TextExchange::Finds { from, to, found },
    }
}
