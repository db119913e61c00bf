//! One writer and one reader, each in a thread of its own.
ghost use Rattle.std.specs.Prelude.{◌≡◌, ℕ, List, [], ◌∷◌, ◌++◌, IfOk};
ghost use Rattle.soak_rounds.specs.declared.finding.Tally.{Tally};
ghost use Rattle.soak_rounds.specs.Findings.{with_end, with_tally};
ghost use Rattle.soak_rounds.specs.Records.{AreOf};
ghost use Rattle.soak_rounds.specs.Rounds.{Adds, HasSoaked, NotedReads, Wrote};

use crate::record::{Record, Shared, Words};
use crate::{Tally, last_read};
use cell_contract::{Calls, Cell};
use std::alloc::{AllocError, Global};
use std::thread::{Threads, join_mut};

/// The calls of each side in one round.
pub const CALLS: u64 = 200_000;

/// One side of a register.
pub trait Side {
    ghost ready: { Self → Type 0 };

    // What a round makes of the side.
    ghost ran: { Self → Self → Type 0 };

    // What was counted in the round.
    ghost tally: { Self → Tally };

    // The last number that was read or written.
    ghost last: { Self → ℕ };

    /// Makes the calls of a round.
    fn run(&mut self)
        requires { ready self.old }
        ensures ready { ready self.new }
        ensures ran { ran self.old self.new };

    /// What was counted in the round, and the last number that was read or written.
    fn told(&self) -> (Tally, u64)
        ensures tally { result.0 ≡ tally self.now }
        ensures last { result.1 ≡ last self.now };
}

#[derive(Drop)]
struct Writer<'a, W: Shared, C: Cell<Record<W>>> {
    cell: &'a C,
    put: C::Put,
    tally: Tally,
    last: u64,
}

impl<'a, W: Shared, C: Cell<Record<W>>> Side for Writer<'a, W, C> {
    ghost use Rattle.soak_rounds.specs.declared.pair.TheConstants.{CALLS};

    ghost ready = { λ s. C.is_put s.cell.now s.put };

    ghost ran = { λ s t. (t.cell.now ≡ s.cell.now) × Adds (Wrote (λ r. W.listed r.words) s.last) CALLS
        (C.written s.put) (C.written t.put) t.tally t.last };

    ghost tally = { λ s. s.tally };

    ghost last = { λ s. s.last };

    fn run(&mut self) {
        self.tally = Tally::none();
        for _ in 0..CALLS {
            self.last = self.last.saturating_add(1);
            self.cell.write(&mut self.put, Record::of(self.last));
            self.tally.write();
        }
    }

    fn told(&self) -> (Tally, u64) {
        (self.tally, self.last)
    }
}

/// Reads, and gives the write that the record is of. The record is looked at where it lies.
fn look<W: Words, C: Calls<Record<W>>>(cell: &C, get: &mut C::Get) -> Option<u64>
    requires { C.is_get cell.now get.old }
    ensures own { C.is_get cell.now get.new }
    ensures answers { C.answers get.new ≡ C.answers get.old ++ C.at_hand get.new ∷ [] }
    ensures number { AreOf (W.listed (C.at_hand get.new).words) result }
{
    cell.read_with(
        get,
        |record|
            ensures { AreOf (W.listed record.now.words) result }
        { record.number() },
    )
}

#[derive(Drop)]
struct Reader<'a, W: Shared, C: Cell<Record<W>>> {
    cell: &'a C,
    get: C::Get,
    tally: Tally,
    last: u64,
}

impl<'a, W: Shared, C: Cell<Record<W>>> Side for Reader<'a, W, C> {
    ghost use Rattle.soak_rounds.specs.declared.pair.TheConstants.{CALLS};

    ghost ready = { λ s. C.is_get s.cell.now s.get };

    ghost ran = { λ s t. (t.cell.now ≡ s.cell.now) × Adds (NotedReads (λ r. W.listed r.words) s.last) CALLS
        (C.answers s.get) (C.answers t.get) t.tally t.last };

    ghost tally = { λ s. s.tally };

    ghost last = { λ s. s.last };

    fn run(&mut self) {
        self.tally = Tally::none();
        for _ in 0..CALLS {
            let number = look(self.cell, &mut self.get);
            self.tally.note(self.last, number);
            self.last = last_read(self.last, number);
        }
    }

    fn told(&self) -> (Tally, u64) {
        (self.tally, self.last)
    }
}

/// Runs both sides at once for a round, and gives what was counted.
pub fn at_once<R: Threads + Sync, A: Side + Send, B: Side + Send>(
    rt: &R,
    writer: &mut A,
    reader: &mut B,
) -> Tally
    requires { A.ready writer.old × B.ready reader.old }
    ensures ready { A.ready writer.new × B.ready reader.new }
    ensures ran { A.ran writer.old writer.new × B.ran reader.old reader.new }
    ensures tally { result ≡ with_end (with_tally (B.tally reader.new) (A.tally writer.new)) (A.last writer.new)
        (B.last reader.new) }
{
    join_mut(
        rt,
        &mut ||
            requires { A.ready writer.now }
            ensures { A.ready writer.exit.now × A.ran writer.entry.now writer.exit.now }
        { writer.run() },
        &mut ||
            requires { B.ready reader.now }
            ensures { B.ready reader.exit.now × B.ran reader.entry.now reader.exit.now }
        { reader.run() },
    );
    let (made, written) = writer.told();
    let (mut tally, read) = reader.told();
    tally.add(made);
    tally.end(written, read);
    tally
}

/// Some rounds over a cell of its own. Before each the reader is told of the last write, so that an
/// answer from before it is older.
pub fn rounds<R: Threads + Sync, W: Shared, C: Cell<Record<W>>>(
    rt: &R,
    alloc: Global,
    count: u64,
) -> Result<Tally, AllocError>
where
    C::Put: Send,
    C::Get: Send,
    C::Receipt: Send,
    ensures { IfOk result (HasSoaked (λ (r : _). W.listed r.words) ⟦<C as Calls<Record<W>>>⟧ CALLS count) }
{
    let (cell, put, get) = C::make(alloc, Record::of(0))?;
    let mut writer: Writer<W, C> = Writer {
        cell: &cell,
        put,
        tally: Tally::none(),
        last: 0,
    };
    let mut reader: Reader<W, C> = Reader {
        cell: &cell,
        get,
        tally: Tally::none(),
        last: 0,
    };
    let mut tally = Tally::none();
    for _ in 0..count {
        let receipt = cell.tell(&mut writer.put);
        cell.learn(&mut reader.get, receipt);
        reader.last = writer.last;
        tally.add(at_once(rt, &mut writer, &mut reader));
    }
    Ok(tally)
}
