//! The verdict on a log whose operations have several keys.
ghost use Rattle.std.specs.Prelude.{ℕ, List, IfOk, length};
ghost use Rattle.fsr_keys_answers.specs.KeysAnswers.{HaveOrders, IsKeysVerdict};
ghost use Rattle.keys_log.specs.Keys.{IsKeysLog};

use fsr_once_answers::search_log;
use history_core::{LogAnswer, Reason};
use kept_lines::KeysLog;
use print_keys::KeysVerdict;
use std::alloc::{AllocError, Global};
use thinned_search::counted;

/// Searches each key's log in turn, up to the first that has no lawful order.
pub(crate) fn judge_keys(alloc: Global, log: &KeysLog) -> Result<KeysVerdict, AllocError>
    ensures { IfOk result (λ verdict. (bytes : List ℕ) (is : IsKeysLog bytes log.now) → IsKeysVerdict is verdict) }
{
    let mut orders = Vec::new(alloc);
    for one in log.logs.as_slice() {
        let found = search_log(alloc, &one.log)?;
        if let LogAnswer::Unlawful { reason } = found {
            let most = counted(alloc, &one.log.thinned, &found)?;
            let number = orders.len();
            return Ok(KeysVerdict::Unlawful {
                number,
                reason,
                most,
            });
        }
        orders.push(found)?;
    }
    Ok(KeysVerdict::Lawful { orders })
}
