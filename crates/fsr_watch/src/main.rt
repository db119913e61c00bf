//! `fsr_watch`: `fsr watch` alone, which is built without what the other commands need.
#![tactic(auto)]

use fsr_watch_answers::{budget_in, run};
use program_runs::{FSR, words_of};
use program_streams::{Exit, Over, tell};
use std::process::ExitCode;

fn main(rt: HostRuntime) -> ExitCode {
    let mut faults = Over::new(rt.stderr());
    let words = match words_of(&rt, FSR.no_memory, &mut faults) {
        Ok(words) => words,
        Err(status) => return ExitCode::from(status),
    };
    let Some(budget) = budget_in(words.as_slice()) else {
        tell(
            &mut faults,
            "fsr_watch: takes --budget N, and the log on standard input\n",
        );
        return ExitCode::from(Exit::NoCommand.status());
    };
    let mut input = Over::new(rt.stdin());
    let mut out = Over::new(rt.stdout());
    let status = run(rt.alloc(), budget, &mut input, &mut out, &mut faults);
    ExitCode::from(status)
}
