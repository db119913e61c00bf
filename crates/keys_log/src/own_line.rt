//! One line behind the header, of any key.
ghost use Rattle.std.specs.Prelude.{◌≡◌, true, IfOk, IfSome, option_map, string_bytes};
ghost use Rattle.read_document.specs.Refusals.{Gives};
ghost use Rattle.keys_log.specs.Keys.{key_on};
ghost use Rattle.lines_log.specs.Logs.{judged, judged_line};
ghost use Rattle.read_line.specs.Lines.{IsAllowed, keyed_seen, operation, op_seen};

use history_core::Kind;
use lines_log::judged_end;
use read_document::{DocError, Key};
use read_line::{LineOp, LogLine, read_line};
use std::alloc::Global;

/// The operation of a line that stands behind so many operations, whatever its key is, or none where it ends the log.
pub(crate) fn read_own(
    alloc: Global,
    limited: bool,
    count: usize,
    last: bool,
    bytes: &[u8],
) -> Result<Option<LineOp>, DocError>
    ensures said { Gives (option_map op_seen) result (judged_line
        (record { limited = limited; key = key_on bytes.now }) count last bytes.now) }
    ensures allowed { IfOk result (λ found. IfSome found IsAllowed) }
    ensures key { IfOk result (λ found. IfSome found (λ op. option_map string_bytes op.key ≡ key_on bytes.now)) }
{
    let line = read_line(alloc, bytes)?;
    match line {
        LogLine::Operation(op) => judged_own(limited, op),
        LogLine::Done(ops) => judged_end(ops, count, last),
    }
}

#[tactic(auto, using(crate::proofs::KeyLemmas::same_as_itself))]
fn judged_own(limited: bool, op: LineOp) -> Result<Option<LineOp>, DocError>
    requires { IsAllowed op }
    ensures said { Gives (option_map op_seen) result (judged
        (record { limited = limited; key = option_map string_bytes op.key }) 0 true (operation (keyed_seen op))) }
    ensures same { IfOk result (λ found. IfSome found (λ own. own ≡ op)) }
{
    if limited || op.kind != Kind::Refused {
        Ok(Some(op))
    } else {
        Err(DocError::Missing(Key::Limit))
    }
}
