//! What is asked of a log, and a run of it.
ghost use Rattle.std.specs.Prelude.{◌≤◌, ◌+◌, List, Result, ℕ};
ghost use Rattle.fsr_order_input.specs.Inputs.{input_text, IsByKind};
ghost use Rattle.program_runs.specs.Answers.{GivesReply, HasAnswerStatus};
ghost use Rattle.program_runs.specs.Run.{Fails, IsToldBy, Runs};
ghost use Rattle.program_runs.specs.declared.fault.Answer.{Answer};
ghost use Rattle.program_runs.specs.declared.fault.Fault.{Fault};
ghost use Rattle.program_streams.specs.Stream.{HasRoom};
ghost use Rattle.fsr_order_input.specs.Kinds.{are_lines};

use crate::input::take_log;
use crate::log::LogInput;
use program_runs::{Answer, Fault, Program, give_answer};
use program_streams::{Sink, Source};
use std::alloc::Global;

/// What is asked of a log.
pub trait LogCommand {
    // What may be replied to the bytes of a log.
    ghost is_reply: { Self → List ℕ → Result Answer Fault → Type 0 };

    /// The reply to a log, whose status is 0, 1 or 8 where there is an answer.
    fn reply(&self, alloc: Global, log: &LogInput) -> Result<Answer, Fault>
        requires { IsByKind log.now }
        ensures gives { GivesReply (is_reply self.now (input_text log.now)) result }
        ensures status { HasAnswerStatus result };
}

/// Runs a command over the streams of its program, and gives the status that the run ends with. The text goes to `out`,
/// and what is to be told besides goes to `faults`, whose failures change no status.
pub fn run_log<C: LogCommand, I: Source, O: Sink, E: Sink>(
    alloc: Global,
    program: &Program,
    command: &C,
    input: &mut I,
    out: &mut O,
    faults: &mut E,
) -> u8
    requires input { HasRoom (I.failed input.old) }
    requires out { HasRoom (O.failed out.old) }
    requires faults { HasRoom (E.failed faults.old) }
    ensures runs { Runs (IsToldBy (C.is_reply command.now)) are_lines (I.remaining input.old)
        (I.remaining input.new) (O.contents out.old) (O.contents out.new) result }
    ensures fails { Fails (I.failed input.old) (I.failed input.new) (O.failed out.old)
        (O.failed out.new) result }
    ensures faults { E.failed faults.new ≤ E.failed faults.old + 1 }
{
    match take_log(alloc, program, input, faults) {
        Ok(log) => {
            let reply = command.reply(alloc, &log);
            give_answer(alloc, program, reply, out, faults)
        }
        Err(status) => status,
    }
}
