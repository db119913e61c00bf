//! A line behind the header.
ghost use Rattle.std.specs.Prelude.{◌≡◌, IfOk};
ghost use Rattle.std.specs.Char.{is_ascii_whitespace};
ghost use Rattle.std.specs.List.{list_all};
ghost use Rattle.serde_json.specs.View.{view};
ghost use Rattle.read_document.specs.Refusals.{Gives};
ghost use Rattle.watch_lines.specs.WatchEntries.{floor_in, is_blank, RunsForwards, watch_entry_in, watch_entry_of};
ghost use Rattle.watch_lines.specs.WatchEntries.{watched_seen, who_in};

use read_document::{
    DocError, Key, is_kind, number_field, optional_number, read_value, required, shaped,
};
use read_exchange::{ExchangeLine, exchange_in};
use serde_json::Value;
use std::alloc::Global;

/// The greatest number of bytes of a line.
const MAX_LINE: usize = 1_048_576;

/// A line behind the header of a log that is watched, with the task that it names.
#[derive(Drop)]
pub enum WatchLine {
    /// As in a log whose records repeat.
    Exchange(Option<u64>, ExchangeLine),
    /// No operation of this task, or of any, on a later line begins before this moment.
    Floor(Option<u64>, u64),
    /// White space alone.
    Blank,
}

/// What a line behind the header says, or its first refusal with its first key.
#[tactic(auto, unfolding(crate::specs::WatchEntries::watch_entry_of))]
pub fn read_watched(alloc: Global, bytes: &[u8]) -> Result<WatchLine, DocError>
    ensures said { Gives watched_seen result (watch_entry_of bytes.now) }
    ensures forwards { IfOk result RunsForwards }
{
    if is_blank(bytes) {
        return Ok(WatchLine::Blank);
    }
    let value = read_value(alloc, bytes)?;
    watched_in(alloc, &value)
}

fn is_blank(bytes: &[u8]) -> bool
    ensures { result ≡ is_blank bytes.now }
{
    bytes.len() <= MAX_LINE && is_space(bytes)
}

fn is_space(bytes: &[u8]) -> bool
    ensures { result ≡ list_all is_ascii_whitespace bytes.now }
{
    bytes.iter().all(|byte| byte.is_ascii_whitespace())
}

#[tactic(auto, unfolding(crate::specs::WatchEntries::watch_entry_in))]
fn watched_in(alloc: Global, value: &Value) -> Result<WatchLine, DocError>
    ensures { Gives watched_seen result (watch_entry_in (view value.now)) }
{
    if is_kind(value, "floor") {
        let at = floor_in(value)?;
        let who = shaped(Key::Who, optional_number(value.get("who")))?;
        Ok(WatchLine::Floor(who, at))
    } else {
        let line = exchange_in(alloc, value)?;
        Ok(WatchLine::Exchange(who_in(value), line))
    }
}

/// The task of an operation.
fn who_in(value: &Value) -> Option<u64>
    ensures { result ≡ who_in (view value.now) }
{
    value.get("who")?.as_u64()
}

/// The moment of a floor.
#[tactic(auto, unfolding(crate::specs::WatchEntries::floor_in))]
fn floor_in(value: &Value) -> Result<u64, DocError>
    ensures { Gives (λ n. n) result (floor_in (view value.now)) }
{
    required(value, &[Key::Begin])?;
    number_field(value, Key::Begin)
}
