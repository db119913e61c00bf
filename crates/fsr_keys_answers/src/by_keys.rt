//! Logs in lines, of one key or several.
ghost use Rattle.std.specs.Prelude.{◌≡◌};
ghost use Rattle.program_runs.specs.Answers.{GivesReply};
ghost use Rattle.fsr_keys_answers.specs.ByKeys.{IsAnswerByKeys, IsAnswerIfSmall, is_other_key};
ghost use Rattle.text_lines.specs.Words.{text_in};

use crate::keys_answer::order_keys;
use crate::small_answer::order_small;
use fsr_once_answers::order_lines;
use program_runs::{Answer, Fault, LinesFault, Show};
use read_document::{DocError, Key};
use std::alloc::Global;
use text_lines::PackedText;

/// The answer to the text of a log in lines whose records don't repeat. It is read as one of one key first.
pub fn order_by_keys(alloc: Global, show: Show, packed: &PackedText) -> Result<Answer, Fault>
    ensures { GivesReply (IsAnswerByKeys show (text_in packed.now)) result }
{
    let reply = order_one_key(alloc, show, packed);
    if is_other_key(&reply) {
        order_keys(alloc, show, packed)
    } else {
        reply
    }
}

/// The answer where all operations have the key of the first.
fn order_one_key(alloc: Global, show: Show, packed: &PackedText) -> Result<Answer, Fault>
    ensures { GivesReply (IsAnswerIfSmall show show.small (text_in packed.now)) result }
{
    if show.small {
        order_small(alloc, show.strict, packed)
    } else {
        order_lines(alloc, show, packed)
    }
}

/// Whether a line was refused since its key isn't that of the first operation.
fn is_other_key(reply: &Result<Answer, Fault>) -> bool
    ensures { result ≡ is_other_key reply.now }
{
    match reply {
        Err(
            Fault::Lines(
                LinesFault::Refused {
                    why: DocError::Law(Key::Key),
                    ..
                },
            ),
        ) => true,
        _ => false,
    }
}
