//! One line behind the header.
ghost use Rattle.std.specs.Prelude.{◌≡◌, None, Ok, true, option_map, string_bytes, IfOk, IfSome};
ghost use Rattle.lines_log.specs.Logs.{judged, judged_line};
ghost use Rattle.read_line.specs.Lines.{done, IsAllowed, keyed_seen, operation, op_seen};

use crate::unread::Unread;
use history_core::Kind;
use lines_log::same_key;
use read_line::{LineOp, LogLine, read_line};
use std::alloc::Global;

/// The operation of a line that stands behind so many operations, or none where it ends the log. This is the key of all
/// of them.
pub(crate) fn read_op(
    alloc: Global,
    limited: bool,
    key: &Option<String>,
    count: usize,
    last: bool,
    bytes: &[u8],
) -> Result<Option<LineOp>, Unread>
    ensures said { IfOk result (λ found. judged_line
        (record { limited = limited; key = option_map string_bytes key.now }) count last bytes.now
        ≡ Ok (option_map op_seen found)) }
    ensures allowed { IfOk result (λ found. IfSome found IsAllowed) }
{
    match read_line(alloc, bytes) {
        Ok(LogLine::Operation(op)) => judged_op(limited, key, op),
        Ok(LogLine::Done(ops)) => judged_end(ops, count, last),
        Err(_) => Err(Unread),
    }
}

fn judged_op(limited: bool, key: &Option<String>, op: LineOp) -> Result<Option<LineOp>, Unread>
    requires { IsAllowed op }
    ensures said { IfOk result (λ found. judged (record { limited = limited; key = option_map string_bytes key.now })
        0 true (operation (keyed_seen op)) ≡ Ok (option_map op_seen found)) }
    ensures allowed { IfOk result (λ found. IfSome found IsAllowed) }
{
    if same_key(key, &op.key) && (limited || op.kind != Kind::Refused) {
        Ok(Some(op))
    } else {
        Err(Unread)
    }
}

fn judged_end(ops: usize, count: usize, last: bool) -> Result<Option<LineOp>, Unread>
    ensures said { IfOk result (λ found. judged (record { limited = true; key = None }) count last (done ops)
        ≡ Ok (option_map op_seen found)) }
    ensures allowed { IfOk result (λ found. IfSome found IsAllowed) }
{
    if last && ops == count {
        Ok(None)
    } else {
        Err(Unread)
    }
}
