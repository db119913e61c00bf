//! `fsr`: checks an order of a history, finds one of a log, plays a schedule, runs a race, or watches a log as it
//! comes.
#![tactic(auto)]

ghost use Rattle.program_streams.specs.Stream.{HasRoom};

use board_live::Posted;
use family_four_slot::FourSlotFamily;
use fsr_answers::run;
use fsr_words::{Request, Want, asked_of, tell_refusal, tell_unopened};
use history_core::Band;
use program_runs::{FSR, Fault, tell_fault, words_of};
use program_streams::{Over, Sink, Source, can_start};
use std::alloc::Global;
use std::fs;
use std::process::ExitCode;
use std::thread::Threads;

/// A race of 16 tasks needs as many threads besides the caller's.
const MOST_THREADS: usize = 15;

/// What the board of a race stands on.
type Boards = FourSlotFamily<Posted<Band>>;

/// Serves a request over these streams, and gives the status that the run ends with.
fn serve<R: Threads + Sync, I: Source, O: Sink, E: Sink>(
    rt: &R,
    alloc: Global,
    request: Request,
    input: &mut I,
    out: &mut O,
    faults: &mut E,
) -> u8
    requires input { HasRoom (I.failed input.old) }
    requires out { HasRoom (O.failed out.old) }
    requires faults { HasRoom (E.failed faults.old) }
{
    match request {
        Request::Answer(want) => run::<Boards, _, _, _, _>(rt, alloc, want, input, out, faults),
        Request::Coherent => fsr_coherent_answers::run(alloc, input, out, faults),
        Request::Watch { budget } => fsr_watch_answers::run(alloc, budget, input, out, faults),
    }
}

fn main(rt: HostRuntime) -> ExitCode {
    let mut faults = Over::new(rt.stderr());
    let words = match words_of(&rt, FSR.no_memory, &mut faults) {
        Ok(words) => words,
        Err(status) => return ExitCode::from(status),
    };
    let asked = match asked_of(rt.alloc(), words.as_slice()) {
        Ok(asked) => asked,
        Err(refusal) => {
            let mut out = Over::new(rt.stdout());
            let status = tell_refusal(rt.alloc(), &FSR, refusal, &mut out, &mut faults);
            return ExitCode::from(status);
        }
    };
    // if no thread could start, the tasks of a race would run in turn, and show nothing
    if asked.request == Request::Answer(Want::Race) && !can_start(&rt, MOST_THREADS) {
        let status = tell_fault(rt.alloc(), &FSR, &mut faults, &Fault::NoThread);
        return ExitCode::from(status);
    }
    let mut out = Over::new(rt.stdout());
    let (alloc, request) = (rt.alloc(), asked.request);
    let status = match asked.file {
        None => {
            let mut input = Over::new(rt.stdin());
            serve(&rt, alloc, request, &mut input, &mut out, &mut faults)
        }
        Some(name) => match fs::open(&rt, name) {
            Ok(file) => {
                let mut input = Over::new(file);
                serve(&rt, alloc, request, &mut input, &mut out, &mut faults)
            }
            Err(_) => tell_unopened(alloc, &FSR, name, &mut faults),
        },
    };
    ExitCode::from(status)
}
