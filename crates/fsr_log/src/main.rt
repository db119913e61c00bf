//! `fsr_log`: `fsr order` alone, of documents of kind `log`, a program without words: it is built without what logs in
//! lines need.
#![tactic(auto)]

use fsr_log_answers::run;
use program_streams::Over;
use std::process::ExitCode;

fn main(rt: HostRuntime) -> ExitCode {
    let mut input = Over::new(rt.stdin());
    let mut out = Over::new(rt.stdout());
    let mut faults = Over::new(rt.stderr());
    let status = run(rt.alloc(), &mut input, &mut out, &mut faults);
    ExitCode::from(status)
}
