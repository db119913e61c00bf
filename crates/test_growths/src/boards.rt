//! Calls of boards. Those that take memory answer, or say that there is none.
ghost use Rattle.std.specs.Prelude.{IfOk};
ghost use Rattle.history_core.specs.Band.{fits};
ghost use Rattle.board_live.specs.Ends.{AllPasses};

use crate::documents::Stopped;
use crate::print;
use crate::team::{A, B, Given, OPENING, Team};
use board_live::{BoardError, Posted};
use cell_contract::Family;
use history_core::Band;
use std::alloc::Global;
use std::io;

/// What is done on a board.
#[derive(Clone, Copy)]
pub enum Call {
    /// It is made, for so many processes.
    New(usize),
    /// It is made for so many processes, of which the first writes and tells, and the last learns and reads.
    Share(usize),
    /// One process writes and tells another, which learns and reads.
    Tell,
    /// One more board is made or isn't.
    Beside,
    /// A board of more processes is made after it: where that is refused, a second time if this is said.
    Renew { twice: bool },
}

impl From<BoardError> for Stopped {
    fn from(error: BoardError) -> Stopped {
        match error {
            BoardError::NoMemory => Stopped::NoMemory,
            BoardError::Processes | BoardError::Limit | BoardError::Opening => Stopped::NoSuchCall,
        }
    }
}

/// The number of passes of a board of so many processes.
fn made<F: Family<Posted<Band>>>(alloc: Global, n: usize) -> Result<usize, BoardError> {
    let team = Team::<F>::new(alloc, n, 9, OPENING)?;
    Ok(team.len())
}

/// Process 0 writes and tells process 1, which learns and reads, and the board is finished.
fn told<F: Family<Posted<Band>>>(alloc: Global) -> Result<[Given; 4], BoardError> {
    let mut team = Team::<F>::new(alloc, 2, 9, OPENING)?;
    Ok([
        team.write(0, A),
        team.pass_on(0, 1),
        team.read(1),
        Given::Posted(team.finish()),
    ])
}

/// A board of 16 processes that opens with this record. Where the first request for it is refused it is
/// tried twice, if that is said.
fn next_board<F: Family<Posted<Band>>>(
    alloc: Global,
    last: Posted<Band>,
    twice: bool,
) -> Result<Team<F>, BoardError>
    ensures { IfOk result (λ t. AllPasses ⟦<F as Family<Posted<Band>>>⟧ fits t.board t.passes.items) }
{
    let made = Team::<F>::renew(alloc, 16, 5, last);
    if twice && made.is_err() {
        return Team::<F>::renew(alloc, 16, 5, last);
    }
    made
}

/// A board whose tags end, and then one of more processes, which opens with its last record.
fn renewed<F: Family<Posted<Band>>>(alloc: Global, twice: bool) -> Result<[Given; 5], BoardError> {
    let mut team = Team::<F>::new(alloc, 2, 1, OPENING)?;
    let first = team.write(0, A);
    let second = team.write(1, B);
    let mut next = next_board::<F>(alloc, team.finish(), twice)?;
    Ok([
        first,
        second,
        next.read(15),
        next.write(15, B),
        Given::Posted(next.finish()),
    ])
}

/// A board on which a process wrote, one more board that is made or isn't, and then what
/// another process reads of the first.
fn beside<F: Family<Posted<Band>>>(alloc: Global) -> Result<[Given; 2], BoardError> {
    let mut team = Team::<F>::new(alloc, 2, 9, OPENING)?;
    let first = team.write(0, A);
    let other = Team::<F>::new(alloc, 16, 9, B);
    drop(other);
    Ok([first, team.read(1)])
}

/// On a board of so many processes the first one writes and tells, the last one learns and reads, and the board ends:
/// whether it was written, what was read, and the last record.
fn shared<F: Family<Posted<Band>>>(
    alloc: Global,
    n: usize,
) -> Result<(bool, Option<Posted<Band>>, Posted<Band>), BoardError> {
    let mut team = Team::<F>::new(alloc, n, 9, OPENING)?;
    let last = n.saturating_sub(1);
    let written = team.write(0, A).is_stamp();
    team.pass_on(0, last);
    let seen = team.read(last).posted();
    Ok((written, seen, team.finish()))
}

fn print_given<const N: usize>(
    rt: &impl Print,
    given: Result<[Given; N], BoardError>,
) -> io::Result<()> {
    match given {
        Ok(given) => println!(rt; "{given:?}"),
        Err(why) => print::stopped(rt, Stopped::from(why)),
    }
}

/// Makes the call on a board over this family, and prints its answer.
pub fn over<F: Family<Posted<Band>>>(rt: &impl Print, alloc: Global, call: Call) -> io::Result<()> {
    match call {
        Call::New(n) => match made::<F>(alloc, n) {
            Ok(passes) => println!(rt; "{passes} passes"),
            Err(why) => print::stopped(rt, Stopped::from(why)),
        },
        Call::Share(n) => match shared::<F>(alloc, n) {
            Ok((written, seen, last)) => println!(rt; "{written} {seen:?} {last:?}"),
            Err(why) => print::stopped(rt, Stopped::from(why)),
        },
        Call::Tell => print_given(rt, told::<F>(alloc)),
        Call::Beside => print_given(rt, beside::<F>(alloc)),
        Call::Renew { twice } => print_given(rt, renewed::<F>(alloc, twice)),
    }
}
