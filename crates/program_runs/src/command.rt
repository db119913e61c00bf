ghost use Rattle.std.specs.Prelude.{◌≤◌, ◌+◌, ℕ, Bool, List, Result};
ghost use Rattle.program_runs.specs.Answers.{GivesReply, HasAnswerStatus};
ghost use Rattle.program_runs.specs.Run.{CountsTaking, Fails, IsToldBy, Runs, TakesDocument, TellsUnlessTaken};
ghost use Rattle.program_runs.specs.declared.fault.Answer.{Answer};
ghost use Rattle.program_runs.specs.declared.fault.Fault.{Fault};
ghost use Rattle.program_streams.specs.Stream.{HasRoom};

use crate::run::{Program, give_answer};
use crate::{Answer, Fault};
use program_streams::{Sink, Source};
use std::alloc::Global;

/// What is asked of a document.
pub trait Command {
    // What may be replied to the bytes of a document.
    ghost is_reply: { Self → List ℕ → Result Answer Fault → Type 0 };
    // Whether a document that begins so has no bound, and is taken to its end.
    ghost is_unbounded: { Self → List ℕ → Bool };

    /// Takes the document, or tells why it was not read and gives the status that the run ends with.
    fn take<I: Source, E: Sink>(
        &self,
        alloc: Global,
        program: &Program,
        input: &mut I,
        faults: &mut E,
    ) -> Result<Vec<u8>, u8>
        requires input { HasRoom (I.failed input.old) }
        requires faults { HasRoom (E.failed faults.old) }
        ensures taken { TakesDocument (is_unbounded self.now) (I.remaining input.old) (I.remaining input.new) result }
        ensures counts { CountsTaking (I.failed input.old) (I.failed input.new) result }
        ensures faults { TellsUnlessTaken (E.failed faults.old) (E.failed faults.new) result };

    /// The reply to the bytes of a document, whose status is 0, 1 or 8 where there is an answer.
    fn reply(&self, alloc: Global, bytes: &[u8]) -> Result<Answer, Fault>
        ensures gives { GivesReply (is_reply self.now bytes.now) result }
        ensures status { HasAnswerStatus result };
}

/// Runs a command over the streams of its program, and gives the status that the run ends with. The text goes to `out`,
/// and what is to be told besides goes to `faults`, whose failures change no status.
pub fn run_command<C: Command, I: Source, O: Sink, E: Sink>(
    alloc: Global,
    program: &Program,
    command: &C,
    input: &mut I,
    out: &mut O,
    faults: &mut E,
) -> u8
    requires input { HasRoom (I.failed input.old) }
    requires out { HasRoom (O.failed out.old) }
    requires faults { HasRoom (E.failed faults.old) }
    ensures runs { Runs (IsToldBy (C.is_reply command.now)) (C.is_unbounded command.now) (I.remaining input.old)
        (I.remaining input.new) (O.contents out.old) (O.contents out.new) result }
    ensures fails { Fails (I.failed input.old) (I.failed input.new) (O.failed out.old)
        (O.failed out.new) result }
    ensures faults { E.failed faults.new ≤ E.failed faults.old + 1 }
{
    match command.take(alloc, program, input, faults) {
        Ok(bytes) => {
            let reply = command.reply(alloc, bytes.as_slice());
            give_answer(alloc, program, reply, out, faults)
        }
        Err(status) => status,
    }
}
