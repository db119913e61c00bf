//! `fsr_once`: `fsr order` alone, of logs in lines of one key whose records are written once: it is built without what
//! other logs and small logs need. It takes one of the other words of `fsr order`.
#![tactic(auto)]

use fsr_once_answers::run;
use fsr_order_input::show_of;
use program_runs::{FSR, words_of};
use program_streams::{Exit, Over, tell};
use std::process::ExitCode;

fn main(rt: HostRuntime) -> ExitCode {
    let mut faults = Over::new(rt.stderr());
    let words = match words_of(&rt, FSR.no_memory, &mut faults) {
        Ok(words) => words,
        Err(status) => return ExitCode::from(status),
    };
    let show = match show_of(words.as_slice()) {
        Some(show) if !show.small => show,
        _ => {
            tell(
                &mut faults,
                "fsr_once: takes --order, --strict or --budget N, and the document on standard input\n",
            );
            return ExitCode::from(Exit::NoCommand.status());
        }
    };
    let mut input = Over::new(rt.stdin());
    let mut out = Over::new(rt.stdout());
    let status = run(rt.alloc(), show, &mut input, &mut out, &mut faults);
    ExitCode::from(status)
}
