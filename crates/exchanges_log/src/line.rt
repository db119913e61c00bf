//! One line behind the header.
ghost use Rattle.std.specs.Prelude.{◌≡◌, None, true, option_map, string_bytes};
ghost use Rattle.read_document.specs.Refusals.{Gives};
ghost use Rattle.exchanges_log.specs.ExchangeLogs.{judged, judged_line};
ghost use Rattle.read_exchange.specs.Exchanges.{done, exchange_seen, keyed_seen, operation};

use lines_log::same_key;
use read_document::{DocError, Key};
use read_exchange::{ExchangeLine, ExchangeOp, is_refusal, read_exchange};
use std::alloc::Global;

/// The operation of a line that stands behind so many operations, or none where it ends the log. This is the key of all
/// of them, and so is whether the header has a limit.
pub(crate) fn read_op(
    alloc: Global,
    limited: bool,
    key: &Option<String>,
    count: usize,
    last: bool,
    bytes: &[u8],
) -> Result<Option<ExchangeOp>, DocError>
    ensures { Gives (option_map exchange_seen) result (judged_line
        (record { limited = limited; key = option_map string_bytes key.now }) count last bytes.now) }
{
    let line = read_exchange(alloc, bytes)?;
    match line {
        ExchangeLine::Operation(op) => judged_op(limited, key, op),
        ExchangeLine::Done(ops) => judged_end(ops, count, last),
    }
}

fn judged_op(
    limited: bool,
    key: &Option<String>,
    op: ExchangeOp,
) -> Result<Option<ExchangeOp>, DocError>
    ensures { Gives (option_map exchange_seen) result (judged
        (record { limited = limited; key = option_map string_bytes key.now }) 0 true (operation (keyed_seen op))) }
{
    if !same_key(key, &op.key) {
        Err(DocError::Law(Key::Key))
    } else if limited || !is_refusal(&op.what) {
        Ok(Some(op))
    } else {
        Err(DocError::Missing(Key::Limit))
    }
}

fn judged_end(ops: usize, count: usize, last: bool) -> Result<Option<ExchangeOp>, DocError>
    ensures { Gives (option_map exchange_seen) result
        (judged (record { limited = true; key = None }) count last (done ops)) }
{
    if !last {
        Err(DocError::Shape(Key::Kind))
    } else if ops == count {
        Ok(None)
    } else {
        Err(DocError::Law(Key::Ops))
    }
}
