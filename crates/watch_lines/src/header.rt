//! The header of a log that is watched.
ghost use Rattle.std.specs.Prelude.{◌≡◌, map, option_map, codes, IfOk};
ghost use Rattle.std.specs.List.{list_all};
ghost use Rattle.serde_json.specs.Find.{get};
ghost use Rattle.serde_json.specs.View.{view};
ghost use Rattle.read_document.specs.declared.key.Key.TheVariants.{Who};
ghost use Rattle.read_document.specs.declared.refusal.DocError.TheVariants.{Shape};
ghost use Rattle.read_document.specs.Refusals.{Gives, some_or};
ghost use Rattle.read_document.specs.Values.{as_items};
ghost use Rattle.read_document.specs.Records.{is_whole};
ghost use Rattle.watch_lines.specs.WatchHeads.{header_seen, task_named, tasks_in, tasks_named, watch_head_of};

use crate::tasks::Task;
use read_document::{DocError, Key, items_in, read_value};
use read_exchange::read_exchange_header;
use serde_json::Value;
use std::alloc::{AllocError, Global};

/// What the log is of, and its tasks, if they are named.
#[derive(Drop)]
pub(crate) struct WatchHeader {
    pub opening: String,
    pub tasks: Vec<Task>,
}

/// What the header of a log that is watched says, or its first refusal with its first key.
#[tactic(auto, unfolding(crate::specs::WatchHeads::watch_head_of))]
pub(crate) fn read_watch_header(alloc: Global, bytes: &[u8]) -> Result<WatchHeader, DocError>
    ensures { Gives header_seen result (watch_head_of bytes.now) }
{
    let opening = read_exchange_header(alloc, bytes)?;
    let value = read_value(alloc, bytes)?;
    let tasks = tasks_in(alloc, &value)?;
    Ok(WatchHeader { opening, tasks })
}

fn tasks_in(alloc: Global, value: &Value) -> Result<Vec<Task>, DocError>
    ensures { Gives (λ tasks. tasks.items) result (tasks_in (get (codes "who") (view value.now))) }
{
    match value.get("who") {
        None | Some(Value::Null) => Ok(Vec::new(alloc)),
        Some(found) => match items_in(found) {
            Some(items) => tasks_named(alloc, items),
            None => Err(DocError::Shape(Key::Who)),
        },
    }
}

fn tasks_named(alloc: Global, items: &[Value]) -> Result<Vec<Task>, DocError>
    ensures { Gives (λ tasks. tasks.items) result (some_or (Shape Who) (tasks_named (map view items.now))) }
{
    if !are_whole(items) {
        return Err(DocError::Shape(Key::Who));
    }
    let tasks = each_named(alloc, items)?;
    Ok(tasks)
}

fn are_whole(items: &[Value]) -> bool
    ensures { result ≡ list_all is_whole (map view items.now) }
{
    all_whole(items)
}

fn all_whole(items: &[Value]) -> bool
    ensures { result ≡ list_all (λ item. is_whole (view item)) items.now }
{
    items.iter().all(|item| item.as_u64().is_some())
}

fn each_named(alloc: Global, items: &[Value]) -> Result<Vec<Task>, AllocError>
    ensures { IfOk result (λ tasks. tasks.items ≡ map (λ item. task_named (view item)) items.now) }
{
    items.iter().map(|item| task_named(item)).collect(alloc)
}

fn task_named(item: &Value) -> Task
    ensures { result ≡ task_named (view item.now) }
{
    Task {
        who: item.as_u64().unwrap_or(0),
        high: None,
    }
}
