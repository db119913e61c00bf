//! Makes one call that takes memory and prints its answer, or `out of memory`. The words name the call and what it is
//! made on. The tests run it again and again, with each of its requests for memory refused in turn.
#![tactic(auto)]

mod boards;
mod calls;
mod cells;
mod documents;
mod families;
mod lanes;
mod print;
mod steps;
mod team;

use crate::documents::Stopped;
use crate::families::Call;
use std::alloc::Global;
use std::io;
use std::io::ErrorKind;
use std::thread::Threads;

fn main(rt: HostRuntime) -> io::Result<()> {
    let words: Vec<String> = match std::env::args(&rt) {
        Ok(all) => match all.collect(rt.alloc()) {
            Ok(words) => words,
            Err(_) => return print::stopped(&rt, Stopped::NoMemory),
        },
        Err(e) if e.kind() == ErrorKind::OutOfMemory => {
            return print::stopped(&rt, Stopped::NoMemory);
        }
        Err(e) => return Err(e),
    };
    match words.as_slice() {
        [_, call, on] => make(&rt, rt.alloc(), call.as_str(), on.as_str()),
        _ => print::stopped(&rt, Stopped::NoSuchCall),
    }
}

/// The call of this name on a board over a family.
fn on_family(call: &str) -> Option<Call> {
    Some(match call {
        "new_board_beside" => Call::Board(boards::Call::Beside),
        "renew_board" => Call::Board(boards::Call::Renew { twice: false }),
        "renew_board_again" => Call::Board(boards::Call::Renew { twice: true }),
        "tell_and_learn" => Call::Board(boards::Call::Tell),
        "new_lane" => Call::Lanes(lanes::Call::New),
        "run_tasks" => Call::Lanes(lanes::Call::Run),
        "finish_lanes" => Call::Lanes(lanes::Call::Finish),
        _ => return None,
    })
}

fn make<R: Print + Threads + Sync>(rt: &R, alloc: Global, call: &str, on: &str) -> io::Result<()> {
    match call {
        "read_document" => calls::read(rt, alloc, on),
        "report_text" => calls::text(rt, alloc, on),
        "play_cell" | "play_matrix" | "play_board" => calls::play(rt, alloc, on),
        "step_cell" => steps::step(rt, on),
        "new_matrix" => calls::new_matrix(rt, alloc, on),
        "make_cell" => cells::make(rt, alloc, on),
        "new_board" => families::new(rt, alloc, on),
        "family_board" => families::share(rt, alloc, on),
        _ => match on_family(call) {
            Some(call) => families::on(rt, alloc, call, on),
            None => print::stopped(rt, Stopped::NoSuchCall),
        },
    }
}
