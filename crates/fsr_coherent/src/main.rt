//! `fsr_coherent`: `fsr order --coherent` alone, a program without words, which is built without what the other
//! commands need.
#![tactic(auto)]

use fsr_coherent_answers::run;
use program_streams::Over;
use std::process::ExitCode;

fn main(rt: HostRuntime) -> ExitCode {
    let mut input = Over::new(rt.stdin());
    let mut out = Over::new(rt.stdout());
    let mut faults = Over::new(rt.stderr());
    let status = run(rt.alloc(), &mut input, &mut out, &mut faults);
    ExitCode::from(status)
}
