//! One line behind the header.
ghost use Rattle.std.specs.Prelude.{◌≡◌, None, true, IfOk, IfSome, option_map, string_bytes};
ghost use Rattle.read_document.specs.Refusals.{Gives};
ghost use Rattle.lines_log.specs.Logs.{judged, judged_line, same_key};
ghost use Rattle.read_line.specs.Lines.{done, IsAllowed, keyed_seen, operation, op_seen};

use history_core::Kind;
use read_document::{DocError, Key};
use read_line::{LineOp, LogLine, read_line};
use std::alloc::Global;

/// The operation of a line that stands behind so many operations, or none where it ends the log.
/// This is the key of all of them.
pub(crate) fn read_op(
    alloc: Global,
    limited: bool,
    key: &Option<String>,
    count: usize,
    last: bool,
    bytes: &[u8],
) -> Result<Option<LineOp>, DocError>
    ensures said { Gives (option_map op_seen) result (judged_line
        (record { limited = limited; key = option_map string_bytes key.now }) count last bytes.now) }
    ensures allowed { IfOk result (λ found. IfSome found IsAllowed) }
{
    let line = read_line(alloc, bytes)?;
    match line {
        LogLine::Operation(op) => judged_op(limited, key, op),
        LogLine::Done(ops) => judged_end(ops, count, last),
    }
}

fn judged_op(limited: bool, key: &Option<String>, op: LineOp) -> Result<Option<LineOp>, DocError>
    requires { IsAllowed op }
    ensures said { Gives (option_map op_seen) result (judged
        (record { limited = limited; key = option_map string_bytes key.now }) 0 true (operation (keyed_seen op))) }
    ensures allowed { IfOk result (λ found. IfSome found IsAllowed) }
{
    if !same_key(key, &op.key) {
        Err(DocError::Law(Key::Key))
    } else if limited || op.kind != Kind::Refused {
        Ok(Some(op))
    } else {
        Err(DocError::Missing(Key::Limit))
    }
}

/// Whether the keys of two operations are the same.
pub fn same_key(key: &Option<String>, other: &Option<String>) -> bool
    ensures { result ≡ same_key (option_map string_bytes key.now) (option_map string_bytes other.now) }
{
    match (key, other) {
        (None, None) => true,
        (Some(key), Some(other)) => key.as_str() == other.as_str(),
        _ => false,
    }
}

/// What the end of a log is behind so many operations: none, or its refusal.
pub fn judged_end(ops: usize, count: usize, last: bool) -> Result<Option<LineOp>, DocError>
    ensures said { Gives (option_map op_seen) result
        (judged (record { limited = true; key = None }) count last (done ops)) }
    ensures allowed { IfOk result (λ found. IfSome found IsAllowed) }
{
    if !last {
        Err(DocError::Shape(Key::Kind))
    } else if ops == count {
        Ok(None)
    } else {
        Err(DocError::Law(Key::Ops))
    }
}
