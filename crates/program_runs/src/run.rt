ghost use Rattle.std.specs.Prelude.{◌≡◌, ◌≤◌, ◌+◌};
ghost use Rattle.program_runs.specs.Run.{CountsTaking, GivesAnswer, never, TakesDocument, TellsFault};
ghost use Rattle.program_runs.specs.Run.{TellsUnlessTaken, untaken_line, untaken_status};
ghost use Rattle.program_streams.specs.Stream.{HasRoom};
ghost use Rattle.program_streams.specs.Transfer.{TellsLine};

use crate::{Answer, Fault};
use program_streams::{Exit, InputFault, Sink, Source, read_input, tell, write_text};
use std::alloc::Global;

/// The name of a program, and the lines that it tells where a stream fails, memory runs out or a thread can't start.
#[derive(Clone, Copy)]
pub struct Program {
    pub name: &'static str,
    pub read_failed: &'static str,
    pub write_failed: &'static str,
    pub no_memory: &'static str,
    pub no_thread: &'static str,
}

/// `fsr`.
pub const FSR: Program = Program {
    name: "fsr",
    read_failed: "fsr: read failed\n",
    write_failed: "fsr: write failed\n",
    no_memory: "fsr: out of memory\n",
    no_thread: "fsr: a thread can't start\n",
};

/// Reads the input whole, or as far as a run reads a document; or tells why it was not read and gives the
/// status that the run ends with.
pub fn take_document<I: Source, E: Sink>(
    alloc: Global,
    program: &Program,
    input: &mut I,
    faults: &mut E,
) -> Result<Vec<u8>, u8>
    requires input { HasRoom (I.failed input.old) }
    requires faults { HasRoom (E.failed faults.old) }
    ensures taken { TakesDocument never (I.remaining input.old) (I.remaining input.new) result }
    ensures counts { CountsTaking (I.failed input.old) (I.failed input.new) result }
    ensures faults { TellsUnlessTaken (E.failed faults.old) (E.failed faults.new) result }
{
    match read_input(alloc, input) {
        Ok(bytes) => Ok(bytes),
        Err(fault) => Err(tell_untaken(program, faults, fault)),
    }
}

/// Tells why the input was not read, and gives the status that the run ends with.
pub fn tell_untaken<E: Sink>(program: &Program, faults: &mut E, fault: InputFault) -> u8
    requires { HasRoom (E.failed faults.old) }
    ensures status { result ≡ untaken_status fault }
    ensures told { TellsLine (E.contents faults.old) (E.contents faults.new) (E.failed faults.old)
        (E.failed faults.new) (untaken_line program.now fault) }
    ensures once { E.failed faults.new ≤ E.failed faults.old + 1 }
{
    match fault {
        InputFault::Failed => {
            tell(faults, program.read_failed);
            Exit::Stream.status()
        }
        InputFault::NoMemory => {
            tell(faults, program.no_memory);
            Exit::NoMemory.status()
        }
    }
}

/// Writes the text of an answer, or tells the fault in its place, and gives the status that the run ends with.
pub fn give_answer<O: Sink, E: Sink>(
    alloc: Global,
    program: &Program,
    reply: Result<Answer, Fault>,
    out: &mut O,
    faults: &mut E,
) -> u8
    requires out { HasRoom (O.failed out.old) }
    requires faults { HasRoom (E.failed faults.old) }
    ensures given { GivesAnswer reply (O.contents out.old) (O.contents out.new) (O.failed out.old)
        (O.failed out.new) result }
    ensures faults { E.failed faults.new ≤ E.failed faults.old + 1 }
{
    match reply {
        Ok(answer) => match write_text(out, answer.text.as_slice()) {
            Ok(()) => answer.status,
            Err(_) => {
                tell(faults, program.write_failed);
                Exit::Stream.status()
            }
        },
        Err(fault) => tell_fault(alloc, program, faults, &fault),
    }
}

/// Tells the fault, and gives its status, or that of want of memory where its line found none. The lines of want of
/// memory and of a thread that can't start need none.
pub fn tell_fault<E: Sink>(alloc: Global, program: &Program, faults: &mut E, fault: &Fault) -> u8
    requires { HasRoom (E.failed faults.old) }
    ensures told { TellsFault program.now fault.now (E.contents faults.old) (E.contents faults.new)
        (E.failed faults.old) (E.failed faults.new) result }
    ensures once { E.failed faults.new ≤ E.failed faults.old + 1 }
{
    match fault {
        Fault::NoMemory => tell(faults, program.no_memory),
        Fault::NoThread => tell(faults, program.no_thread),
        _ => match format!(in alloc; "{}: {fault}\n", program.name) {
            Ok(line) => tell(faults, line.as_str()),
            Err(_) => {
                tell(faults, program.no_memory);
                return Exit::NoMemory.status();
            }
        },
    }
    fault.exit().status()
}
