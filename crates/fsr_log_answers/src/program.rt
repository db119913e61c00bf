ghost use Rattle.std.specs.Prelude.{◌≤◌, ◌+◌};
ghost use Rattle.fsr_log_answers.specs.Logs.{IsLogAnswer};
ghost use Rattle.program_runs.specs.Run.{Fails, IsToldBy, never, Runs};
ghost use Rattle.program_streams.specs.Stream.{HasRoom};

use crate::log_answer::order_document;
use program_runs::{Answer, Command, FSR, Fault, Program, run_command, take_document};
use program_streams::{Sink, Source};
use std::alloc::Global;

/// The command `order` of documents.
struct Log;

impl Command for Log {
    ghost is_reply = { λ _ bytes reply. IsLogAnswer bytes reply };

    ghost is_unbounded = { λ _. never };

    fn take<I: Source, E: Sink>(
        &self,
        alloc: Global,
        program: &Program,
        input: &mut I,
        faults: &mut E,
    ) -> Result<Vec<u8>, u8> {
        take_document(alloc, program, input, faults)
    }

    fn reply(&self, alloc: Global, bytes: &[u8]) -> Result<Answer, Fault> {
        order_document(alloc, bytes)
    }
}

/// Runs `fsr order` of a document of kind `log` over its streams, and gives the status that it ends with. The text goes
/// to `out`, and what is to be told besides goes to `faults`, whose failures change no status.
pub fn run<I: Source, O: Sink, E: Sink>(
    alloc: Global,
    input: &mut I,
    out: &mut O,
    faults: &mut E,
) -> u8
    requires input { HasRoom (I.failed input.old) }
    requires out { HasRoom (O.failed out.old) }
    requires faults { HasRoom (E.failed faults.old) }
    ensures runs { Runs (IsToldBy IsLogAnswer) never (I.remaining input.old) (I.remaining input.new)
        (O.contents out.old) (O.contents out.new) result }
    ensures fails { Fails (I.failed input.old) (I.failed input.new) (O.failed out.old)
        (O.failed out.new) result }
    ensures faults { E.failed faults.new ≤ E.failed faults.old + 1 }
{
    run_command(alloc, &FSR, &Log, input, out, faults)
}
