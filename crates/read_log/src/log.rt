//! Documents of kind `log`.
ghost use Rattle.std.specs.Prelude.{◌≡◌, IfOk};
ghost use Rattle.read_document.specs.Refusals.{Gives};
ghost use Rattle.read_log.specs.Log.{CanBeSearched, log_document, log_in, log_of};
ghost use Rattle.serde_json.specs.View.{view};

use history_core::{Band, History, Items, Op};
use history_fields::limit_in_range;
use read_document::{DocError, Key, is_kind, must, read_value, required};
use read_history::{are_lawful, field, list_field, one_term, ops_in_range};
use serde_json::Value;
use std::alloc::Global;

/// The history that the bytes stand for, or the first refusal with its first key. It is `read_value` and then
/// `log_document`; the value in between is freed.
#[tactic(auto, unfolding(crate::specs::Log::log_of))]
pub fn read_log(alloc: Global, bytes: &[u8]) -> Result<History<Band>, DocError>
    ensures log { Gives (λ h. h) result (log_of bytes.now) }
    ensures searchable { IfOk result CanBeSearched }
{
    let value = read_value(alloc, bytes)?;
    log_document(alloc, &value)
}

/// The history that a value stands for, which its caller keeps.
pub fn log_document(alloc: Global, value: &Value) -> Result<History<Band>, DocError>
    ensures log { Gives (λ h. h) result (log_document (view value.now)) }
    ensures searchable { IfOk result CanBeSearched }
{
    if is_kind(value, "log") {
        log_in(alloc, value)
    } else {
        Err(DocError::Kind)
    }
}

#[tactic(auto, unfolding(crate::specs::Log::log_in))]
fn log_in(alloc: Global, value: &Value) -> Result<History<Band>, DocError>
    ensures log { Gives (λ h. h) result (log_in (view value.now)) }
    ensures searchable { IfOk result CanBeSearched }
{
    required(value, &[Key::Opening, Key::Limit, Key::Ops])?;
    let opening: Band = field(alloc, value, Key::Opening)?;
    let limit: u64 = field(alloc, value, Key::Limit)?;
    let ops: Vec<Op<Band>> = list_field(alloc, value, Key::Ops)?;
    must(limit_in_range(limit), DocError::Range(Key::Limit))?;
    must(ops_in_range(ops.as_slice()), DocError::Range(Key::Ops))?;
    must(opening.fits(), DocError::Law(Key::Opening))?;
    must(are_lawful(ops.as_slice()), DocError::Law(Key::Ops))?;
    let terms = one_term(alloc, limit)?;
    Ok(History {
        opening,
        terms,
        ops: Items::new(ops),
    })
}
