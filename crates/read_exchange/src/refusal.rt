//! Refused writes.
ghost use Rattle.std.specs.Prelude.{◌≡◌};
ghost use Rattle.read_exchange.specs.Exchanges.{is_refusal, what_seen};

use crate::line::TextExchange;

/// Whether a write was refused.
pub fn is_refusal(what: &TextExchange) -> bool
    ensures { result ≡ is_refusal (what_seen what.now) }
{
    matches!(what, TextExchange::Refuses(_))
}
