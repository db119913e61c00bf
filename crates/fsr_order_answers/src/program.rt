ghost use Rattle.std.specs.Prelude.{◌≤◌, ◌+◌};
ghost use Rattle.program_runs.specs.Run.{Fails, IsToldBy, Runs};
ghost use Rattle.fsr_order_input.specs.Kinds.{are_lines};
ghost use Rattle.fsr_order_answers.specs.Order.{IsOrderAnswer};
ghost use Rattle.program_streams.specs.Stream.{HasRoom};

use crate::logs::order;
use fsr_order_input::{LogCommand, LogInput, run_log};
use program_runs::{Answer, FSR, Fault, Show};
use program_streams::{Sink, Source};
use std::alloc::Global;

/// The command `order`, which prints this.
#[derive(Clone, Copy)]
struct Order(Show);

impl LogCommand for Order {
    ghost is_reply = { λ self bytes reply. IsOrderAnswer self.0 bytes reply };

    fn reply(&self, alloc: Global, log: &LogInput) -> Result<Answer, Fault> {
        order(alloc, self.0, log)
    }
}

/// Runs `fsr order` over its streams, and gives the status that it ends with. The text goes to `out`, and what is to be
/// told besides goes to `faults`, whose failures change no status.
pub fn run<I: Source, O: Sink, E: Sink>(
    alloc: Global,
    show: Show,
    input: &mut I,
    out: &mut O,
    faults: &mut E,
) -> u8
    requires input { HasRoom (I.failed input.old) }
    requires out { HasRoom (O.failed out.old) }
    requires faults { HasRoom (E.failed faults.old) }
    ensures runs { Runs (IsToldBy (IsOrderAnswer show)) are_lines (I.remaining input.old) (I.remaining input.new)
        (O.contents out.old) (O.contents out.new) result }
    ensures fails { Fails (I.failed input.old) (I.failed input.new) (O.failed out.old)
        (O.failed out.new) result }
    ensures faults { E.failed faults.new ≤ E.failed faults.old + 1 }
{
    run_log(alloc, &FSR, &Order(show), input, out, faults)
}
