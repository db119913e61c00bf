//! Which lines are headers of logs in lines.
ghost use Rattle.std.specs.Prelude.{◌≡◌, IfOk};
ghost use Rattle.read_document.specs.Kinds.{is_header};

use crate::{DocError, is_kind, read_value};
use std::alloc::{AllocError, Global};

/// Whether a line is a header of kind `lines`.
pub fn is_header(alloc: Global, line: &[u8]) -> Result<bool, AllocError>
    ensures { IfOk result (λ is. is ≡ is_header line.now) }
{
    match read_value(alloc, line) {
        Ok(value) => Ok(is_kind(&value, "lines")),
        Err(DocError::NoMemory) => Err(AllocError),
        Err(_) => Ok(false),
    }
}
