use crate::documents::Stopped;
use crate::print;
use cell_contract::{Calls, Lawful};
use cell_four_slot::FourSlotCell;
use cell_triple::TripleCell;
use std::alloc::{AllocError, Global};
use std::io;

/// A record with no law.
#[derive(Clone, Copy)]
struct Count(u64);

impl Lawful for Count {
    ghost fits = { λ _. Unit {0} };

    ghost rises = { λ _ _. Unit {0} };

    ghost reflexive = { λ _. tt };

    ghost transitive = { λ _ _ _ _ _. tt };
}

/// Makes a cell, writes once and reads once.
fn answer<C: Calls<Count>>(alloc: Global) -> Result<u64, AllocError> {
    let (cell, mut put, mut get) = C::make(alloc, Count(0))?;
    cell.write(&mut put, Count(1));
    let answer = cell.read(&mut get).0;
    cell.finish(put, get);
    Ok(answer)
}

pub fn make(rt: &impl Print, alloc: Global, on: &str) -> io::Result<()> {
    let made = match on {
        "four_slots" => answer::<FourSlotCell<Count>>(alloc),
        "triple" => answer::<TripleCell<Count>>(alloc),
        _ => return print::stopped(rt, Stopped::NoSuchCall),
    };
    match made {
        Ok(answer) => println!(rt; "{answer}"),
        Err(_) => print::stopped(rt, Stopped::NoMemory),
    }
}
