//! A run of `fsr watch` over its streams.
ghost use Rattle.std.specs.Prelude.{◌≡◌, ◌≤◌, ◌+◌, ◌⊎◌, Ok, Err};
ghost use Rattle.program_runs.specs.Run.{Fails};
ghost use Rattle.program_streams.specs.Stream.{HasRoom};
ghost use Rattle.fsr_watch_answers.specs.Runs.{WatchRuns};
ghost use Rattle.fsr_watch_answers.specs.Text.{watch_status};
ghost use Rattle.fsr_watch_answers.specs.inner.Givings.{GivesTold};

use crate::text::answer_of;
use crate::watch::watch_input;
use program_runs::{FSR, Fault, give_answer, tell_fault};
use program_streams::{Exit, Failed, Sink, Source, tell};
use std::alloc::Global;
use watch_lines::{Told, WatchFault};

/// Runs `fsr watch` over its streams, and gives the status that it ends with. The text goes to `out` as soon as the
/// line has come at which the log is lost, and what is to be told besides goes to `faults`, whose failures change no
/// status.
pub fn run<I: Source, O: Sink, E: Sink>(
    alloc: Global,
    budget: usize,
    input: &mut I,
    out: &mut O,
    faults: &mut E,
) -> u8
    requires input { HasRoom (I.failed input.old) }
    requires out { HasRoom (O.failed out.old) }
    requires faults { HasRoom (E.failed faults.old) }
    ensures runs { WatchRuns (I.remaining input.old) (I.remaining input.new) (O.contents out.old)
        (O.contents out.new) result }
    ensures fails { Fails (I.failed input.old) (I.failed input.new) (O.failed out.old) (O.failed out.new) result }
    ensures faults { E.failed faults.new ≤ E.failed faults.old + 1 }
{
    match watch_input(alloc, budget, input) {
        Ok(reply) => give_told(alloc, reply, out, faults),
        Err(Failed) => {
            tell(faults, FSR.read_failed);
            Exit::Stream.status()
        }
    }
}

/// Writes what is told, or tells the fault in its place, and gives the status that the run ends with.
fn give_told<O: Sink, E: Sink>(
    alloc: Global,
    reply: Result<Told, WatchFault>,
    out: &mut O,
    faults: &mut E,
) -> u8
    requires out { HasRoom (O.failed out.old) }
    requires faults { HasRoom (E.failed faults.old) }
    ensures given { GivesTold reply (O.contents out.old) (O.contents out.new) (O.failed out.old) (O.failed out.new)
        result }
    ensures faults { E.failed faults.new ≤ E.failed faults.old + 1 }
{
    match reply {
        Ok(told) => match answer_of(alloc, told) {
            Ok(answer) => give_answer(alloc, &FSR, Ok(answer), out, faults),
            Err(_) => tell_fault(alloc, &FSR, faults, &Fault::NoMemory),
        },
        Err(fault) => tell_watch_fault(alloc, faults, &fault),
    }
}

/// Tells the fault, and gives its status, or that of want of memory where its line found none.
fn tell_watch_fault<E: Sink>(alloc: Global, faults: &mut E, fault: &WatchFault) -> u8
    requires { HasRoom (E.failed faults.old) }
    ensures status { (result ≡ watch_status fault.now) ⊎ (result ≡ 4) }
    ensures faults { E.failed faults.new ≤ E.failed faults.old + 1 }
{
    match fault {
        WatchFault::Refused(fault) => tell_fault(alloc, &FSR, faults, fault),
        WatchFault::Below { line, floor } => tell_below(alloc, faults, *line, *floor),
    }
}

/// Tells that the operation on a line begins below the floor of an earlier one.
fn tell_below<E: Sink>(alloc: Global, faults: &mut E, line: usize, floor: usize) -> u8
    requires { HasRoom (E.failed faults.old) }
    ensures status { (result ≡ 3) ⊎ (result ≡ 4) }
    ensures faults { E.failed faults.new ≤ E.failed faults.old + 1 }
{
    match format!(in alloc; "fsr: line {line}: begins below the floor of line {floor}\n") {
        Ok(text) => {
            tell(faults, text.as_str());
            Exit::Refused.status()
        }
        Err(_) => {
            tell(faults, FSR.no_memory);
            Exit::NoMemory.status()
        }
    }
}
