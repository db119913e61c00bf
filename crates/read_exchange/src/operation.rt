//! The lines behind the header.
ghost use Rattle.serde_json.specs.View.{view};
ghost use Rattle.read_document.specs.Refusals.{Gives};
ghost use Rattle.read_exchange.specs.Exchanges.{entry_in, entry_of, keyed_seen, line_seen, operation_in};

use crate::compare::{Effect, asked_in, effect_of};
use crate::form::form_in;
use crate::line::{ExchangeLine, ExchangeOp};
use read_document::{
    DocError, Key, done_in, is_kind, key_in, must, number_field, optional_number, read_value,
    record_in, required, shaped,
};
use read_line::ends_later;
use serde_json::Value;
use std::alloc::Global;

/// What a line behind the header says, or its first refusal with its first key.
#[tactic(auto, unfolding(crate::specs::Exchanges::entry_of))]
pub fn read_exchange(alloc: Global, bytes: &[u8]) -> Result<ExchangeLine, DocError>
    ensures { Gives line_seen result (entry_of bytes.now) }
{
    let value = read_value(alloc, bytes)?;
    exchange_in(alloc, &value)
}

/// The same of the value that a line is.
#[tactic(auto, unfolding(crate::specs::Exchanges::entry_in))]
pub fn exchange_in(alloc: Global, value: &Value) -> Result<ExchangeLine, DocError>
    ensures { Gives line_seen result (entry_in (view value.now)) }
{
    if is_kind(value, "done") {
        let ops = done_in(value)?;
        Ok(ExchangeLine::Done(ops))
    } else {
        let op = operation_in(alloc, value)?;
        Ok(ExchangeLine::Operation(op))
    }
}

#[tactic(auto, unfolding(crate::specs::Exchanges::operation_in))]
fn operation_in(alloc: Global, value: &Value) -> Result<ExchangeOp, DocError>
    ensures { Gives keyed_seen result (operation_in (view value.now)) }
{
    required(
        value,
        &[Key::Who, Key::Kind, Key::Begin, Key::End, Key::Record],
    )?;
    number_field(value, Key::Who)?;
    let form = shaped(Key::Kind, form_in(value))?;
    let begin = number_field(value, Key::Begin)?;
    let end = shaped(Key::End, optional_number(value.get("end")))?;
    let record = record_in(alloc, value)?;
    let key = key_in(alloc, value)?;
    let asked = asked_in(alloc, form, value)?;
    must(ends_later(begin, end), DocError::Law(Key::End))?;
    let Effect { maybe, what } = effect_of(asked, end, record)?;
    Ok(ExchangeOp {
        begin,
        end,
        maybe,
        what,
        key,
    })
}
