//! Which documents are logs in lines.
ghost use Rattle.std.specs.Prelude.{◌≡◌, IfOk};
ghost use Rattle.fsr_order_input.specs.Kinds.{are_lines};

use read_document::is_header;
use std::alloc::{AllocError, Global};
use text_lines::split_line;

/// Whether the first line of a document is a header of kind `lines`.
pub fn are_lines(alloc: Global, bytes: &[u8]) -> Result<bool, AllocError>
    ensures { IfOk result (λ are. are ≡ are_lines bytes.now) }
{
    match split_line(bytes) {
        Some((first, _)) => is_header(alloc, first),
        None => Ok(false),
    }
}
