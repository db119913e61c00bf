//! On which lines the operations of a log stand.
ghost use Rattle.std.specs.Prelude.{◌≡◌, IfOk};
ghost use Rattle.read_log.specs.Log.{lines_in};
ghost use Rattle.serde_json.specs.View.{view};

use read_history::list_of;
use serde_json::Value;
use std::alloc::{AllocError, Global};

/// The lines on which the operations of a document of kind `log` stood in a log in lines, if it tells them.
pub fn lines_in(alloc: Global, value: &Value) -> Result<Vec<usize>, AllocError>
    ensures { IfOk result (λ lines. lines.items ≡ lines_in (view value.now)) }
{
    let Some(found) = value.get("lines") else {
        return Ok(Vec::new(alloc));
    };
    match list_of(alloc, found)? {
        Some(lines) => Ok(lines),
        None => Ok(Vec::new(alloc)),
    }
}
