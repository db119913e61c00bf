//! Boards of 2 to 16 processes over records of 24 bytes, whose processes call in turn in one thread.
ghost use Rattle.std.specs.Prelude.{IfOk};
ghost use Rattle.board_live.specs.Ends.{AllPasses};
ghost use Rattle.cells_bench.specs.Items.{no_law};

use crate::measure::{Batch, Op, per_call, say};
use crate::{boards_at_once, boards_paced};
use board_live::{Board, Pass, Posted, RecordLaw};
use cell_contract::{Family, SharedFamily};
use std::alloc::{AllocError, Global};
use std::io;
use std::rt::Clock;
use std::thread::Threads;

/// What the processes share: three times the number of a write. It has no law.
#[derive(Clone, Copy, PartialEq, Eq)]
pub struct Item {
    words: [u64; 3],
}

impl Item {
    pub fn of(number: u64) -> Item {
        Item { words: [number; 3] }
    }

    /// Its words joined: the whole record has to be there.
    fn joined(&self) -> u64 {
        let [first, middle, last] = self.words;
        first | middle | last
    }

    /// Whether its words are of several writes.
    pub fn is_torn(&self) -> bool {
        let [first, middle, last] = self.words;
        first != middle || middle != last
    }
}

impl RecordLaw for Item {
    ghost obeys = { no_law };

    fn fits(&self) -> bool {
        true
    }
}

/// The numbers of processes that are measured.
pub const PROCESSES: [usize; 4] = [2, 4, 8, 16];

/// No write comes so far.
const LIMIT: u64 = u64::MAX - 1;

/// A board with the passes of its processes.
#[derive(Drop)]
pub struct Team<F: Family<Posted<Item>>> {
    pub board: Board<Item, F>,
    pub passes: Vec<Pass<Item, F>>,
}

impl<F: Family<Posted<Item>>> Team<F> {
    pub fn new(alloc: Global, n: usize) -> Result<Team<F>, AllocError>
        ensures { IfOk result (λ t. AllPasses ⟦<F as Family<Posted<Item>>>⟧ no_law t.board t.passes.items) }
    {
        let Ok((board, passes)) = Board::new(alloc, n, LIMIT, Item::of(0)) else {
            return Err(AllocError);
        };
        Ok(Team { board, passes })
    }

    /// Each write is of the process after the one before.
    fn write(&mut self, calls: u64)
        requires { AllPasses ⟦<F as Family<Posted<Item>>>⟧ no_law self.old.board self.old.passes.items }
        ensures { AllPasses ⟦<F as Family<Posted<Item>>>⟧ no_law self.new.board self.new.passes.items }
    {
        let n = self.passes.len();
        if n == 0 {
            return;
        }
        for number in 0..calls {
            let who = (number % n as u64) as usize;
            let _ = self.board.write(&mut self.passes[who], Item::of(number));
        }
    }

    /// Each read is of the process after the one before. Gives a sum of what was read.
    fn read(&mut self, calls: u64) -> u64
        requires { AllPasses ⟦<F as Family<Posted<Item>>>⟧ no_law self.old.board self.old.passes.items }
        ensures { AllPasses ⟦<F as Family<Posted<Item>>>⟧ no_law self.new.board self.new.passes.items }
    {
        let n = self.passes.len();
        if n == 0 {
            return 0;
        }
        let mut sum = 0;
        for number in 0..calls {
            let who = (number % n as u64) as usize;
            sum |= self.board.read(&mut self.passes[who]).item.joined();
        }
        sum
    }

    /// So many times the first process writes, and each other one reads. Gives a sum of what was read.
    fn round(&mut self, times: u64) -> u64
        requires { AllPasses ⟦<F as Family<Posted<Item>>>⟧ no_law self.old.board self.old.passes.items }
        ensures { AllPasses ⟦<F as Family<Posted<Item>>>⟧ no_law self.new.board self.new.passes.items }
    {
        let mut sum = 0;
        for number in 0..times {
            let _ = self.board.write(&mut self.passes[0], Item::of(number));
            sum |= self.others_read();
        }
        sum
    }

    /// Each process but the first reads.
    fn others_read(&mut self) -> u64
        requires { AllPasses ⟦<F as Family<Posted<Item>>>⟧ no_law self.old.board self.old.passes.items }
        ensures { AllPasses ⟦<F as Family<Posted<Item>>>⟧ no_law self.new.board self.new.passes.items }
    {
        let n = self.passes.len();
        let mut sum = 0;
        for who in 1..n {
            sum |= self.board.read(&mut self.passes[who]).item.joined();
        }
        sum
    }
}

impl<F: Family<Posted<Item>>> Batch for Team<F> {
    ghost ready = { λ t. AllPasses ⟦<F as Family<Posted<Item>>>⟧ no_law t.board t.passes.items };

    fn batch(&mut self, op: Op, calls: u64) -> u64 {
        match op {
            Op::Read => self.read(calls),
            Op::Round => self.round(calls),
            _ => {
                self.write(calls);
                0
            }
        }
    }
}

/// One board of so many processes and the calls, nothing else.
pub fn calls<F: Family<Posted<Item>>>(
    alloc: Global,
    n: usize,
    op: Op,
    calls: u64,
) -> Result<u64, AllocError> {
    let mut team = Team::<F>::new(alloc, n)?;
    Ok(team.batch(op, calls))
}

/// The picoseconds of a call, where the processes of one board call in turn in one thread.
#[derive(Clone, Copy)]
struct TurnTimes {
    write: u64,
    read: u64,
    round: u64,
}

fn times<F: Family<Posted<Item>>>(
    rt: &impl Clock,
    alloc: Global,
    n: usize,
) -> io::Result<TurnTimes> {
    let mut team = Team::<F>::new(alloc, n)?;
    let write = per_call(rt, alloc, &mut team, Op::Write)?;
    let read = per_call(rt, alloc, &mut team, Op::Read)?;
    let round = per_call(rt, alloc, &mut team, Op::Round)?;
    Ok(TurnTimes { write, read, round })
}

fn alone<R: Clock + Print, F: Family<Posted<Item>>>(
    rt: &R,
    alloc: Global,
    name: &str,
    n: usize,
) -> io::Result<()> {
    let times = times::<F>(rt, alloc, n)?;
    let mode = format!(in alloc; "n{n}_solo")?;
    say(rt, name, 24, mode.as_str(), "write_ns", times.write)?;
    say(rt, name, 24, mode.as_str(), "read_ns", times.read)?;
    say(rt, name, 24, mode.as_str(), "round_ns", times.round)
}

/// Measures boards over one family.
pub fn run<R: Clock + Print + Threads + Sync, F: SharedFamily<Posted<Item>>>(
    rt: &R,
    alloc: Global,
    name: &str,
) -> io::Result<()>
where
    F::Seat: Send,
    F::Receipt: Send,
{
    for n in PROCESSES {
        alone::<R, F>(rt, alloc, name, n)?;
        for tasks in [2, 4] {
            if tasks <= n {
                boards_at_once::run::<R, F>(rt, alloc, name, n, tasks)?;
            }
        }
    }
    boards_paced::run::<R, F>(rt, alloc, name)
}
