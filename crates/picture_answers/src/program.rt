ghost use Rattle.std.specs.Prelude.{◌≡◌, ◌≤◌, ◌+◌};
ghost use Rattle.program_runs.specs.Run.{Fails, never, Runs};
ghost use Rattle.picture_answers.specs.Answers.{IsPictureAnswer};
ghost use Rattle.picture_answers.specs.Run.{IsPictureOutcome};
ghost use Rattle.program_streams.specs.Stream.{HasRoom};

use crate::answer;
use program_runs::{Answer, Command, Fault, Program, run_command, take_document};
use program_streams::{Exit, Sink, Source, tell};
use std::alloc::Global;

/// The name of `picture`, and the lines that it tells where a stream fails or memory runs out. It starts no thread.
pub const PICTURE: Program = Program {
    name: "picture",
    read_failed: "picture: read failed\n",
    write_failed: "picture: write failed\n",
    no_memory: "picture: out of memory\n",
    no_thread: "picture: a thread can't start\n",
};

/// The line of a run that was given words besides the program's name.
const NO_WORDS: &str = "picture: takes no words: ./picture < DOCUMENT > FILE.svg\n";

/// What `picture` is asked of a document.
struct Draw;

impl Command for Draw {
    ghost is_reply = { λ _ bytes reply. IsPictureAnswer bytes reply };

    ghost is_unbounded = { λ _. never };

    fn take<I: Source, E: Sink>(
        &self,
        alloc: Global,
        program: &Program,
        input: &mut I,
        faults: &mut E,
    ) -> Result<Vec<u8>, u8> {
        take_document(alloc, program, input, faults)
    }

    fn reply(&self, alloc: Global, bytes: &[u8]) -> Result<Answer, Fault> {
        answer(alloc, bytes)
    }
}

/// Runs the program over its streams, and gives the status that it ends with. It is asked for a picture where it is
/// given no words besides its name. The picture goes to `out`, and what is to be told besides goes to `faults`,
/// whose failures change no status.
pub fn run<I: Source, O: Sink, E: Sink>(
    alloc: Global,
    asked: bool,
    input: &mut I,
    out: &mut O,
    faults: &mut E,
) -> u8
    requires input { HasRoom (I.failed input.old) }
    requires out { HasRoom (O.failed out.old) }
    requires faults { HasRoom (E.failed faults.old) }
    ensures runs { Runs (IsPictureOutcome asked) never (I.remaining input.old)
        (I.remaining input.new) (O.contents out.old) (O.contents out.new) result }
    ensures fails { Fails (I.failed input.old) (I.failed input.new) (O.failed out.old)
        (O.failed out.new) result }
    ensures faults { E.failed faults.new ≤ E.failed faults.old + 1 }
{
    if !asked {
        tell(faults, NO_WORDS);
        return Exit::NoCommand.status();
    }
    run_command(alloc, &PICTURE, &Draw, input, out, faults)
}
