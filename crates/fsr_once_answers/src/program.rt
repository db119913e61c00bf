ghost use Rattle.std.specs.Prelude.{◌≤◌, ◌+◌};
ghost use Rattle.program_runs.specs.Run.{Fails, IsToldBy, Runs};
ghost use Rattle.fsr_order_input.specs.Kinds.{are_lines};
ghost use Rattle.fsr_once_answers.specs.Once.{IsAnswerOnce};
ghost use Rattle.program_streams.specs.Stream.{HasRoom};

use crate::once::order_once;
use fsr_order_input::{LogCommand, LogInput, run_log};
use program_runs::{Answer, FSR, Fault, Show};
use program_streams::{Sink, Source};
use std::alloc::Global;

/// The command `order` of logs whose records are written once, which prints this.
#[derive(Clone, Copy)]
struct Once(Show);

impl LogCommand for Once {
    ghost is_reply = { λ self bytes reply. IsAnswerOnce self.0 bytes reply };

    fn reply(&self, alloc: Global, log: &LogInput) -> Result<Answer, Fault> {
        order_once(alloc, self.0, log)
    }
}

/// Runs `fsr order` of such a log over its streams, and gives the status that it ends with. The text goes to `out`, and
/// what is to be told besides goes to `faults`, whose failures change no status.
pub fn run<I: Source, O: Sink, E: Sink>(
    alloc: Global,
    show: Show,
    input: &mut I,
    out: &mut O,
    faults: &mut E,
) -> u8
    requires input { HasRoom (I.failed input.old) }
    requires out { HasRoom (O.failed out.old) }
    requires faults { HasRoom (E.failed faults.old) }
    ensures runs { Runs (IsToldBy (IsAnswerOnce show)) are_lines (I.remaining input.old) (I.remaining input.new)
        (O.contents out.old) (O.contents out.new) result }
    ensures fails { Fails (I.failed input.old) (I.failed input.new) (O.failed out.old)
        (O.failed out.new) result }
    ensures faults { E.failed faults.new ≤ E.failed faults.old + 1 }
{
    run_log(alloc, &FSR, &Once(show), input, out, faults)
}
