//! The input of the command `order` from memory.
ghost use Rattle.std.specs.Prelude.{◌≡◌, IfOk};
ghost use Rattle.fsr_order_input.specs.Inputs.{input_text, IsByKind};

use fsr_order_input::{LogInput, are_lines};
use std::alloc::{AllocError, Global};
use text_lines::PackedText;

/// These bytes as the input of the command `order`.
pub(crate) fn log_input(alloc: Global, bytes: &[u8]) -> Result<LogInput, AllocError>
    ensures text { IfOk result (λ log. input_text log ≡ bytes.now) }
    ensures kind { IfOk result IsByKind }
{
    if are_lines(alloc, bytes)? {
        Ok(LogInput::Lines(PackedText::of(alloc, bytes)?))
    } else {
        Ok(LogInput::Document(bytes.to_vec(alloc)?))
    }
}
