ghost use Rattle.std.specs.Prelude.{◌≡◌, ◌≤◌, ◌+◌, ◌⊎◌};
ghost use Rattle.fsr_words.specs.Command.{TellsError, TellsRefusal};
ghost use Rattle.program_runs.specs.Run.{Fails};
ghost use Rattle.program_streams.specs.Stream.{HasRoom};

use crate::NoCommand;
use clap::Error;
use history_core::Items;
use program_runs::{Answer, Program, give_answer};
use program_streams::{Exit, Sink, tell};
use std::alloc::Global;

/// Tells why words are no command, and gives the status that the run ends with: what clap says of them, or
/// the line of a run that found no memory. What was asked for, help or the version, goes to `out`, and
/// what was refused to `faults`.
pub fn tell_refusal<O: Sink, E: Sink>(
    alloc: Global,
    program: &Program,
    refusal: NoCommand,
    out: &mut O,
    faults: &mut E,
) -> u8
    requires out { HasRoom (O.failed out.old) }
    requires faults { HasRoom (E.failed faults.old) }
    ensures status { TellsRefusal refusal (O.contents out.old) (O.contents out.new) result }
    ensures fails { Fails 0 0 (O.failed out.old) (O.failed out.new) result }
    ensures faults { E.failed faults.new ≤ E.failed faults.old + 1 }
{
    match refusal {
        NoCommand::NoMemory => {
            tell(faults, program.no_memory);
            Exit::NoMemory.status()
        }
        NoCommand::Unknown => {
            tell(
                faults,
                "error: --coherent goes with no other flag of fsr order\n",
            );
            Exit::NoCommand.status()
        }
        NoCommand::Refused(e) => tell_error(alloc, program, &e, out, faults),
    }
}

/// Tells what clap says.
fn tell_error<O: Sink, E: Sink>(
    alloc: Global,
    program: &Program,
    error: &Error,
    out: &mut O,
    faults: &mut E,
) -> u8
    requires out { HasRoom (O.failed out.old) }
    requires faults { HasRoom (E.failed faults.old) }
    ensures status { TellsError error.now (O.contents out.old) (O.contents out.new) result }
    ensures fails { Fails 0 0 (O.failed out.old) (O.failed out.new) result }
    ensures faults { E.failed faults.new ≤ E.failed faults.old + 1 }
{
    let Ok(text) = format!(in alloc; "{error}") else {
        tell(faults, program.no_memory);
        return Exit::NoMemory.status();
    };
    if error.use_stderr() {
        tell(faults, text.as_str());
        return Exit::NoCommand.status();
    }
    let answer = Answer {
        text: Items::new(text.into_bytes()),
        status: Exit::Sound.status(),
    };
    give_answer(alloc, program, Ok(answer), out, faults)
}

/// Tells that a file can't be opened, or that memory ran out, and gives the status that the run ends
/// with: that of a failed read.
pub fn tell_unopened<E: Sink>(alloc: Global, program: &Program, file: &str, faults: &mut E) -> u8
    requires { HasRoom (E.failed faults.old) }
    ensures status { (result ≡ 5) ⊎ (result ≡ 4) }
    ensures faults { E.failed faults.new ≤ E.failed faults.old + 1 }
{
    match format!(in alloc; "{}: can't open {file}\n", program.name) {
        Ok(line) => {
            tell(faults, line.as_str());
            Exit::Stream.status()
        }
        Err(_) => {
            tell(faults, program.no_memory);
            Exit::NoMemory.status()
        }
    }
}
