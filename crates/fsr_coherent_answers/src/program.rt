//! A run of `fsr order --coherent` over its streams.
ghost use Rattle.std.specs.Prelude.{◌≡◌, ◌≤◌, ◌+◌, IfOk};
ghost use Rattle.program_runs.specs.Answers.{GivesReply, HasAnswerStatus};
ghost use Rattle.program_runs.specs.Run.{Fails, IsToldBy, Runs};
ghost use Rattle.fsr_order_input.specs.Kinds.{are_lines};
ghost use Rattle.fsr_coherent_answers.specs.CoherenceAnswers.{IsCoherenceAnswer};
ghost use Rattle.program_streams.specs.Stream.{HasRoom};

use crate::answer::order_coherent;
use fsr_order_input::{LogCommand, LogInput, run_log};
use program_runs::{Answer, FSR, Fault};
use program_streams::{Sink, Source};
use std::alloc::Global;
use text_lines::PackedText;

/// The command `order --coherent`.
#[derive(Clone, Copy)]
struct Coherent;

impl LogCommand for Coherent {
    ghost is_reply = { λ _ bytes reply. IsCoherenceAnswer bytes reply };

    fn reply(&self, alloc: Global, log: &LogInput) -> Result<Answer, Fault> {
        match log {
            LogInput::Lines(packed) => order_coherent(alloc, packed),
            LogInput::Document(bytes) => order_document(alloc, bytes.as_slice()),
        }
    }
}

/// The answer to the bytes of a document that is no log in lines.
fn order_document(alloc: Global, bytes: &[u8]) -> Result<Answer, Fault>
    ensures gives { GivesReply (IsCoherenceAnswer bytes.now) result }
    ensures status { HasAnswerStatus result }
{
    match PackedText::of(alloc, bytes) {
        Ok(packed) => order_coherent(alloc, &packed),
        Err(_) => Err(Fault::NoMemory),
    }
}

/// Runs `fsr order --coherent` over its streams, and gives the status that it ends with. The text goes to `out`, and
/// what is to be told besides goes to `faults`, whose failures change no status.
pub fn run<I: Source, O: Sink, E: Sink>(
    alloc: Global,
    input: &mut I,
    out: &mut O,
    faults: &mut E,
) -> u8
    requires input { HasRoom (I.failed input.old) }
    requires out { HasRoom (O.failed out.old) }
    requires faults { HasRoom (E.failed faults.old) }
    ensures runs { Runs (IsToldBy IsCoherenceAnswer) are_lines (I.remaining input.old) (I.remaining input.new)
        (O.contents out.old) (O.contents out.new) result }
    ensures fails { Fails (I.failed input.old) (I.failed input.new) (O.failed out.old)
        (O.failed out.new) result }
    ensures faults { E.failed faults.new ≤ E.failed faults.old + 1 }
{
    run_log(alloc, &FSR, &Coherent, input, out, faults)
}
