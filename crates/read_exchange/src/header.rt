//! The header of a log whose records repeat.
ghost use Rattle.std.specs.Prelude.{string_bytes};
ghost use Rattle.read_document.specs.Refusals.{Gives};
ghost use Rattle.read_exchange.specs.Headers.{exchange_head_of};

use read_document::{DocError, Key, must};
use read_line::{LogHeader, read_header};
use std::alloc::Global;

/// The opening in the header of a log whose records repeat, or its first refusal with its first key. It has no limit.
#[tactic(auto, unfolding(crate::specs::Headers::exchange_head_of))]
pub fn read_exchange_header(alloc: Global, bytes: &[u8]) -> Result<String, DocError>
    ensures { Gives string_bytes result (exchange_head_of bytes.now) }
{
    let LogHeader { opening, limit } = read_header(alloc, bytes)?;
    must(limit.is_none(), DocError::Law(Key::Limit))?;
    Ok(opening)
}
