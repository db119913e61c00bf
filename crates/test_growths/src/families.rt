//! The two families, each named in one function: a call that names the type of a family is dear to prove.
use crate::documents::Stopped;
use crate::{boards, lanes, print};
use board_live::Posted;
use cell_contract::SharedFamily;
use family_four_slot::FourSlotFamily;
use family_triple::TripleFamily;
use history_core::Band;
use std::alloc::Global;
use std::io;
use std::thread::Threads;

/// What is done on a board over a family.
#[derive(Clone, Copy)]
pub enum Call {
    Board(boards::Call),
    Lanes(lanes::Call),
}

fn over<R: Print + Threads + Sync, F: SharedFamily<Posted<Band>>>(
    rt: &R,
    alloc: Global,
    call: Call,
) -> io::Result<()>
where
    F::Seat: Send,
    F::Receipt: Send,
{
    match call {
        Call::Board(call) => boards::over::<F>(rt, alloc, call),
        Call::Lanes(call) => lanes::over::<R, F>(rt, alloc, call),
    }
}

/// Makes the call on a board over the family of this name, and prints its answer.
pub fn on<R: Print + Threads + Sync>(
    rt: &R,
    alloc: Global,
    call: Call,
    family: &str,
) -> io::Result<()> {
    match family {
        "four_slots" => over::<R, FourSlotFamily<Posted<Band>>>(rt, alloc, call),
        "triple" => over::<R, TripleFamily<Posted<Band>>>(rt, alloc, call),
        _ => print::stopped(rt, Stopped::NoSuchCall),
    }
}

/// Makes a board of so many processes, and prints how many passes it has.
pub fn new<R: Print + Threads + Sync>(rt: &R, alloc: Global, on_what: &str) -> io::Result<()> {
    let (processes, family) = match on_what {
        "2_four_slots" => (2, "four_slots"),
        "16_four_slots" => (16, "four_slots"),
        "2_triple" => (2, "triple"),
        "16_triple" => (16, "triple"),
        _ => return print::stopped(rt, Stopped::NoSuchCall),
    };
    on(rt, alloc, Call::Board(boards::Call::New(processes)), family)
}

/// Makes a board whose last process hears of the first, and prints what its calls and its end give.
pub fn share<R: Print + Threads + Sync>(rt: &R, alloc: Global, on_what: &str) -> io::Result<()> {
    let processes = match on_what {
        "2_four_slots" => 2,
        "16_four_slots" => 16,
        _ => return print::stopped(rt, Stopped::NoSuchCall),
    };
    on(
        rt,
        alloc,
        Call::Board(boards::Call::Share(processes)),
        "four_slots",
    )
}
