//! The small log of a log whose operations have several keys.
ghost use Rattle.std.specs.Prelude.{◌≡◌, IfOk, slice_get};
ghost use Rattle.fsr_keys_answers.specs.SmallKeys.{small_key, small_keys};

use history_core::{LogAnswer, Reason};
use kept_lines::{KeyLog, KeysLog};
use print_keys::{KeysVerdict, whole_reason, whole_thinned};
use small_log::small_text;
use std::alloc::{AllocError, Global};

/// The small log of the key that has no lawful order, if there is one.
pub fn small_keys(
    alloc: Global,
    log: &KeysLog,
    verdict: &KeysVerdict,
) -> Result<Vec<u8>, AllocError>
    ensures { IfOk result (λ text. text.items ≡ small_keys log.now verdict.now) }
{
    match verdict {
        KeysVerdict::Lawful { .. } => Ok(Vec::new(alloc)),
        KeysVerdict::Unlawful { number, reason, .. } => {
            small_key(alloc, log.logs.as_slice(), *number, *reason)
        }
    }
}

fn small_key(
    alloc: Global,
    logs: &[KeyLog],
    number: usize,
    reason: Reason,
) -> Result<Vec<u8>, AllocError>
    ensures { IfOk result (λ text. text.items ≡ small_key (slice_get logs.now number) reason) }
{
    match logs.get(number) {
        Some(one) => {
            let places = one.places.as_slice();
            let whole = whole_thinned(alloc, places, &one.log.thinned)?;
            let reason = whole_reason(places, reason);
            small_text(alloc, &whole, &LogAnswer::Unlawful { reason })
        }
        None => Ok(Vec::new(alloc)),
    }
}
