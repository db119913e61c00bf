//! The lines behind the header.
ghost use Rattle.std.specs.Prelude.{◌≡◌, true, is_some, IfOk, OnOk};
ghost use Rattle.serde_json.specs.View.{view};
ghost use Rattle.read_document.specs.Refusals.{Gives};
ghost use Rattle.read_line.specs.Lines.{allowed, ends_later, entry_in, entry_of, has_record, IsAllowed};
ghost use Rattle.read_line.specs.Lines.{keyed_seen, kind_in, line_seen, MayFollow, operation_in};

use crate::line::{LineOp, LogLine};
use history_core::Kind;
use history_fields::kind_named;
use read_document::{
    DocError, Key, done_in, is_kind, key_in, must, number_field, optional_number, read_value,
    record_in, required, shaped,
};
use serde_json::Value;
use std::alloc::Global;

/// What a line behind the header says, or its first refusal with its first key.
#[tactic(auto, unfolding(crate::specs::Lines::entry_of))]
pub fn read_line(alloc: Global, bytes: &[u8]) -> Result<LogLine, DocError>
    ensures said { Gives line_seen result (entry_of bytes.now) }
    ensures allowed { IfOk result MayFollow }
{
    let value = read_value(alloc, bytes)?;
    line_in(alloc, &value)
}

#[tactic(auto, unfolding(crate::specs::Lines::entry_in))]
fn line_in(alloc: Global, value: &Value) -> Result<LogLine, DocError>
    ensures said { Gives line_seen result (entry_in (view value.now)) }
    ensures allowed { IfOk result MayFollow }
{
    if is_kind(value, "done") {
        let ops = done_in(value)?;
        Ok(LogLine::Done(ops))
    } else {
        let op = operation_in(alloc, value)?;
        Ok(LogLine::Operation(op))
    }
}

#[tactic(auto, unfolding(crate::specs::Lines::operation_in))]
fn operation_in(alloc: Global, value: &Value) -> Result<LineOp, DocError>
    ensures said { Gives keyed_seen result (operation_in (view value.now)) }
    ensures allowed { IfOk result IsAllowed }
{
    required(
        value,
        &[Key::Who, Key::Kind, Key::Begin, Key::End, Key::Record],
    )?;
    let who = number_field(value, Key::Who)? as usize;
    let kind = shaped(Key::Kind, kind_in(value))?;
    let begin = number_field(value, Key::Begin)?;
    let end = shaped(Key::End, optional_number(value.get("end")))?;
    let record = record_in(alloc, value)?;
    let key = key_in(alloc, value)?;
    allowed(kind, begin, end, record.is_some())?;
    Ok(LineOp {
        who,
        kind,
        begin,
        end,
        record,
        key,
    })
}

fn kind_in(value: &Value) -> Option<Kind>
    ensures { result ≡ kind_in (view value.now) }
{
    kind_named(value.get("kind")?.as_str()?)
}

#[tactic(auto, unfolding(crate::specs::Lines::allowed))]
fn allowed(kind: Kind, begin: u64, end: Option<u64>, there: bool) -> Result<(), DocError>
    ensures allowed { result ≡ allowed kind begin end there }
    ensures forwards { OnOk result (ends_later begin end ≡ true) }
    ensures recorded { OnOk result (has_record kind end there ≡ true) }
{
    must(ends_later(begin, end), DocError::Law(Key::End))?;
    must(may_have(kind, end, there), DocError::Law(Key::Record))
}

/// Whether an operation doesn't end before it begins.
pub fn ends_later(begin: u64, end: Option<u64>) -> bool
    ensures { result ≡ ends_later begin end }
{
    match end {
        Some(end) => begin <= end,
        None => true,
    }
}

fn may_have(kind: Kind, end: Option<u64>, there: bool) -> bool
    ensures { result ≡ has_record kind end there }
{
    match kind {
        Kind::Write => there,
        Kind::Read | Kind::Refused => there || end.is_none(),
    }
}
