//! `picture`: draws a history with an order of it, or the report of a schedule, that comes as
//! a document on standard input.
#![tactic(auto)]

use picture_answers::{PICTURE, run};
use program_streams::{Exit, Over, tell};
use std::io::ErrorKind;
use std::process::ExitCode;

fn main(rt: HostRuntime) -> ExitCode {
    let alloc = rt.alloc();
    let mut faults = Over::new(rt.stderr());
    let words = match std::env::args(&rt) {
        Ok(all) => all.count(),
        Err(e) => {
            if e.kind() == ErrorKind::OutOfMemory {
                tell(&mut faults, PICTURE.no_memory);
                return ExitCode::from(Exit::NoMemory.status());
            }
            2
        }
    };
    let mut input = Over::new(rt.stdin());
    let mut out = Over::new(rt.stdout());
    let status = run(alloc, words <= 1, &mut input, &mut out, &mut faults);
    ExitCode::from(status)
}
