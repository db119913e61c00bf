//! A watcher of a log, which reads its lines behind the header.
ghost use Rattle.std.specs.Prelude.{◌≡◌, ℕ, ◌+◌, ◌<◌, ◌≤◌, ◌++◌, ◌∷◌, [], List, Result, Ok, Option, None, Some};
ghost use Rattle.std.specs.Prelude.{IfOk, IfSome, OnOk, option_map, string_bytes};
ghost use Rattle.object_core.specs.declared.operation.Operation.{Operation};
ghost use Rattle.object_watch.specs.Remainders.{AreAhead, AreHeldWith};
ghost use Rattle.object_watch.specs.Watches.{IsLedToOpen, IsWatchOf};
ghost use Rattle.read_document.specs.Refusals.{Gives};
ghost use Rattle.read_document.specs.declared.refusal.DocError.{DocError};
ghost use Rattle.read_exchange.specs.Exchanges.{done, keyed_seen, operation};
ghost use Rattle.watch_lines.specs.Lined.{lined_after, lined_op};
ghost use Rattle.watch_lines.specs.Replies.{TellsIf};
ghost use Rattle.watch_lines.specs.Seen.{early_fault, has_key, HasOperation, key_with, opened_with};
ghost use Rattle.watch_lines.specs.Seen.{raised, raised_by, refusal_at, LinesSeen, with_line};
ghost use Rattle.watch_lines.specs.Steps.{EndsAs, IsLastAnswer, opened};
ghost use Rattle.watch_lines.specs.Kept.{KeepsAll};
ghost use Rattle.watch_lines.specs.Tasks.{moment_of, own_floor};
ghost use Rattle.watch_lines.specs.WatchEntries.{floor, IsForward, RunsForwards, said, watch_entry_of, watched_seen};
ghost use Rattle.watch_lines.specs.WatchEntries.{WatchEntry};
ghost use Rattle.watch_lines.specs.WatchHeads.{header_seen};
ghost use Rattle.watch_lines.specs.declared.lined.Lined.{Lined};
ghost use Rattle.watch_lines.specs.Watchers.{ForgetsAt, ForgetsFrom, IsRisenBefore, Knows, KnowsIf, KnowsLess};
ghost use Rattle.watch_lines.specs.Watchers.{RisesAs, RisesNow, TakesEntry, TakesLine, TakesOperation};

use crate::header::{WatchHeader, read_watch_header};
use crate::line::{WatchLine, read_watched};
use crate::lined::{Lined, LinedRegister};
use crate::number::number_op;
use crate::records::Records;
use crate::tasks::{
    Task, below, floor_for_all, floor_of, higher, is_named, moment_of, own_floor, raise,
};
use crate::told::{Counts, Floor, Told, WatchFault};
use lines_log::{refused_at, same_key};
use object_core::Operation;
use object_registers::{Exchange, Exchanging};
use object_watch::{Ended, Risen, Watch, WatchError, finish, open_watch, rise, take};
use program_runs::Fault;
use read_document::{DocError, Key};
use read_exchange::{ExchangeLine, ExchangeOp, is_refusal};
use std::alloc::{AllocError, Global};

/// The line of the header.
const HEADER: usize = 1;

/// No memory, or more lines than there are numbers.
const NO_MEMORY: WatchFault = WatchFault::Refused(Fault::NoMemory);

/// What is known of a log by its lines so far.
#[derive(Drop)]
pub struct Watcher {
    /// How many lines were read, the header among them.
    lines: usize,
    records: Records,
    watch: Watch<LinedRegister, Lined>,
    /// The key of each operation, once there is one.
    key: Option<Option<String>>,
    /// The tasks that the header names, with their floors.
    tasks: Vec<Task>,
    /// The highest floor of all.
    high: Option<Floor>,
    counts: Counts,
    /// The line of the end, if it was read.
    ended: Option<usize>,
}

/// What a line comes to.
#[derive(Drop)]
pub enum Step {
    GoesOn(Watcher),
    Stops(Result<Told, WatchFault>),
}

impl Watcher {
    /// Behind this header.
    fn new(alloc: Global, header: WatchHeader) -> Result<Watcher, AllocError>
        ensures { IfOk result (Knows (opened_with (header_seen header))) }
    {
        let WatchHeader { opening, tasks } = header;
        let register = Exchanging { held: 0 };
        let watch = open_watch(alloc, LinedRegister { register })?;
        let records = Records::new(alloc, opening)?;
        Ok(Watcher {
            lines: HEADER,
            records,
            watch,
            key: None,
            tasks,
            high: None,
            counts: Counts::none(),
            ended: None,
        })
    }

    /// What the next line comes to.
    fn step(self, alloc: Global, budget: usize, bytes: &[u8]) -> Step
        requires { (s : LinesSeen) × Knows s self }
        ensures takes { (s : LinesSeen) → Knows s self → TakesEntry s (watch_entry_of bytes.now) result }
        ensures forgets { ForgetsAt self result }
    {
        let Some(line) = self.lines.checked_add(1) else {
            return Step::Stops(Err(NO_MEMORY));
        };
        let read = read_watched(alloc, bytes);
        match self.ended {
            Some(end) => self.behind_end(line, end, read),
            None => match read {
                Ok(read) => self.enter(alloc, budget, line, read),
                Err(why) => Step::Stops(Err(refusal_at(line, why))),
            },
        }
    }

    /// What a line behind the end comes to.
    fn behind_end(self, line: usize, end: usize, read: Result<WatchLine, DocError>) -> Step
        ensures takes { (s : LinesSeen) (entry : Result WatchEntry DocError) → Knows s self → s.ended ≡ Some end →
            line ≡ s.lines + 1 → Gives watched_seen read entry → TakesEntry s entry result }
        ensures forgets { ForgetsAt self result }
    {
        match read {
            Ok(WatchLine::Blank) => Step::GoesOn(self.at_line(line)),
            Err(DocError::NoMemory) => Step::Stops(Err(NO_MEMORY)),
            Ok(WatchLine::Exchange(_, _)) | Ok(WatchLine::Floor(_, _)) | Err(_) => {
                Step::Stops(Err(refusal_at(end, DocError::Shape(Key::Kind))))
            }
        }
    }

    /// One line more, of which nothing is known.
    fn at_line(self, line: usize) -> Watcher
        ensures knows { (s : LinesSeen) → Knows s self → line ≡ s.lines + 1 → Knows (with_line s) result }
        ensures high { result.high ≡ self.high }
    {
        let mut watcher = self;
        watcher.lines = line;
        watcher
    }

    /// What a line comes to that says this, before the end.
    fn enter(self, alloc: Global, budget: usize, line: usize, read: WatchLine) -> Step
        requires known { (s : LinesSeen) × Knows s self }
        requires forwards { RunsForwards read }
        requires next { line ≡ self.lines + 1 }
        ensures takes { (s : LinesSeen) → Knows s self → s.ended ≡ None → line ≡ s.lines + 1 →
            TakesEntry s (Ok (watched_seen read)) result }
        ensures forgets { ForgetsAt self result }
    {
        match read {
            WatchLine::Blank => Step::GoesOn(self.at_line(line)),
            WatchLine::Floor(who, at) => self.rise_to(alloc, budget, line, who, at),
            WatchLine::Exchange(who, ExchangeLine::Operation(op)) => {
                self.take(alloc, budget, line, who, op)
            }
            WatchLine::Exchange(_, ExchangeLine::Done(ops)) => self.end_at(line, ops),
        }
    }

    /// The end, which says how many operations there are.
    fn end_at(self, line: usize, ops: usize) -> Step
        ensures takes { (s : LinesSeen) (who : Option ℕ) → Knows s self → s.ended ≡ None → line ≡ s.lines + 1 →
            TakesEntry s (Ok (said who (done ops))) result }
        ensures forgets { ForgetsAt self result }
    {
        if ops != self.counts.ops {
            return Step::Stops(Err(refusal_at(line, DocError::Law(Key::Ops))));
        }
        let mut watcher = self;
        watcher.lines = line;
        watcher.ended = Some(line);
        Step::GoesOn(watcher)
    }

    /// An operation. No write is refused: the log has no limit.
    fn take(
        self,
        alloc: Global,
        budget: usize,
        line: usize,
        who: Option<u64>,
        op: ExchangeOp,
    ) -> Step
        requires known { (s : LinesSeen) × Knows s self }
        requires forward { IsForward op }
        requires next { line ≡ self.lines + 1 }
        ensures takes { (s : LinesSeen) → Knows s self → s.ended ≡ None → line ≡ s.lines + 1 →
            TakesEntry s (Ok (said who (operation (keyed_seen op)))) result }
        ensures forgets { ForgetsAt self result }
    {
        if !has_key(&self.key, &op.key) {
            return Step::Stops(Err(refusal_at(line, DocError::Law(Key::Key))));
        }
        if is_refusal(&op.what) {
            return Step::Stops(Err(refusal_at(line, DocError::Missing(Key::Limit))));
        }
        match early_fault(self.tasks.as_slice(), self.high, line, who, op.begin) {
            Some(fault) => Step::Stops(Err(fault)),
            None => self.put(alloc, budget, line, who, op),
        }
    }

    /// An operation of this key and task that isn't below the floors.
    fn put(
        self,
        alloc: Global,
        budget: usize,
        line: usize,
        who: Option<u64>,
        op: ExchangeOp,
    ) -> Step
        requires known { (s : LinesSeen) × Knows s self }
        requires forward { IsForward op }
        requires above { self.watch.moment ≤ op.begin }
        requires next { line ≡ self.lines + 1 }
        ensures takes { (s : LinesSeen) → Knows s self → line ≡ s.lines + 1 →
            TakesOperation s who (keyed_seen op) result }
        ensures forgets { ForgetsAt self result }
    {
        let mut watcher = self;
        let end = op.end;
        match watcher.push(alloc, line, op) {
            Ok(()) => watcher.raise_by(alloc, budget, who, end),
            Err(_) => Step::Stops(Err(NO_MEMORY)),
        }
    }

    /// If the header names tasks, the end of an operation is a floor of its task.
    fn raise_by(self, alloc: Global, budget: usize, who: Option<u64>, end: Option<u64>) -> Step
        requires { (s : LinesSeen) × Knows s self }
        ensures rises { (s : LinesSeen) → Knows s self →
            RisesAs s (raised_by s who (own_floor s.tasks who end)) result }
        ensures forgets { ForgetsAt self result }
    {
        match own_floor(self.tasks.as_slice(), who, end) {
            Some(at) => self.raise(alloc, budget, who, at),
            None => Step::GoesOn(self),
        }
    }

    fn push(&mut self, alloc: Global, line: usize, op: ExchangeOp) -> Result<(), AllocError>
        requires known { (s : LinesSeen) × Knows s self.old }
        requires forward { IsForward op }
        requires above { self.old.watch.moment ≤ op.begin }
        ensures pushed { OnOk result ((s : LinesSeen) → Knows s self.old → line ≡ s.lines + 1 →
            (t : LinesSeen) × HasOperation s (keyed_seen op) t × Knows t self.new) }
        ensures kept { OnOk result (KeepsAll self.old.records self.new.records) }
        ensures high { OnOk result (self.new.high ≡ self.old.high) }
    {
        keep_key(alloc, &mut self.key, &op.key)?;
        let next = number_op(&mut self.records, op)?;
        self.counts = self.counts.with(&next)?;
        take_lined(&mut self.watch, next, line)?;
        self.lines = line;
        Ok(())
    }

    /// A floor, of a task or of all.
    fn rise_to(self, alloc: Global, budget: usize, line: usize, who: Option<u64>, at: u64) -> Step
        requires { (s : LinesSeen) × Knows s self }
        ensures takes { (s : LinesSeen) → Knows s self → s.ended ≡ None → line ≡ s.lines + 1 →
            TakesEntry s (Ok (floor who at)) result }
        ensures forgets { ForgetsAt self result }
    {
        if !is_named(self.tasks.as_slice(), who) {
            return Step::Stops(Err(refusal_at(line, DocError::Law(Key::Who))));
        }
        let Some(floors) = self.counts.floors.checked_add(1) else {
            return Step::Stops(Err(NO_MEMORY));
        };
        let mut watcher = self;
        watcher.lines = line;
        watcher.counts.floors = floors;
        watcher.raise(alloc, budget, who, at)
    }

    /// A floor, of a task or of all, by the last line.
    fn raise(self, alloc: Global, budget: usize, who: Option<u64>, at: u64) -> Step
        requires { (s : LinesSeen) × Knows s self }
        ensures rises { (s : LinesSeen) → Knows s self → RisesAs s (raised s who at) result }
        ensures forgets { ForgetsAt self result }
    {
        let mut watcher = self;
        let line = watcher.lines;
        raise(&mut watcher.tasks, who, at, line);
        let all = floor_for_all(watcher.tasks.as_slice(), who, at);
        let high = higher(watcher.high, all, line);
        watcher.rise_if(alloc, budget, high)
    }

    /// The floor of all is this one, which isn't lower.
    fn rise_if(self, alloc: Global, budget: usize, high: Option<Floor>) -> Step
        requires known { (s : LinesSeen) × Knows s self }
        requires no_lower { moment_of self.high ≤ moment_of high }
        ensures rises { (s : LinesSeen) → Knows s self → RisesNow s high result }
        ensures forgets { ForgetsAt self result }
    {
        if moment_of(high) == moment_of(self.high) {
            let mut watcher = self;
            watcher.high = high;
            return Step::GoesOn(watcher);
        }
        self.rise(alloc, budget, high)
    }

    /// The floor rises to this one.
    fn rise(self, alloc: Global, budget: usize, high: Option<Floor>) -> Step
        requires known { (s : LinesSeen) × Knows s self }
        requires later { self.watch.moment < moment_of high }
        ensures rises { (s : LinesSeen) → Knows s self → RisesNow s high result }
        ensures forgets { ForgetsFrom self.records result }
    {
        let line = self.lines;
        let Watcher {
            lines,
            records,
            watch,
            key,
            tasks,
            high: _,
            counts,
            ended,
        } = self;
        match rise_before(alloc, watch, moment_of(high), budget) {
            Ok(Risen::Open(watch)) => Watcher {
                lines,
                records,
                watch,
                key,
                tasks,
                high,
                counts,
                ended,
            }
            .forget(alloc),
            Ok(Risen::Lost { at, op }) => Step::Stops(Ok(Told::Lost {
                at,
                line: op.what.line,
            })),
            Ok(Risen::TooMany { at: _ }) => {
                Step::Stops(Err(WatchFault::Refused(Fault::Undecided { line })))
            }
            Err(_) => Step::Stops(Err(NO_MEMORY)),
        }
    }

    /// Forgets the records that nothing held names, if many are kept.
    fn forget(self, alloc: Global) -> Step
        ensures knows { (s : LinesSeen) → Knows s self → KnowsLess s result }
        ensures forgets { ForgetsFrom self.records result }
    {
        let mut watcher = self;
        match watcher.records.forget(alloc, watcher.watch.held.as_slice()) {
            Ok(()) => Step::GoesOn(watcher),
            Err(_) => Step::Stops(Err(NO_MEMORY)),
        }
    }

    /// What is told where no line follows.
    fn end(self, alloc: Global, budget: usize) -> Result<Told, WatchFault>
        requires { (s : LinesSeen) × Knows s self }
        ensures { (s : LinesSeen) → Knows s self → TellsIf (EndsAs s) result }
    {
        let Watcher {
            lines,
            watch,
            counts,
            ended,
            ..
        } = self;
        match finish(alloc, watch, budget) {
            Ok(Ended::Lawful) => Ok(Told::Lawful {
                counts,
                ended: ended.is_some(),
            }),
            Ok(Ended::Lost { at, op }) => Ok(Told::Lost {
                at,
                line: op.what.line,
            }),
            Ok(Ended::TooMany { at: _ }) => {
                Err(WatchFault::Refused(Fault::Undecided { line: lines }))
            }
            Err(_) => Err(NO_MEMORY),
        }
    }
}

/// What the next line comes to, behind those that were read, if any were: the first one is the header.
pub fn watch_line(alloc: Global, budget: usize, read: Option<Watcher>, bytes: &[u8]) -> Step
    requires { (seen : Option LinesSeen) × KnowsIf seen read }
    ensures takes { (seen : Option LinesSeen) → KnowsIf seen read → TakesLine seen bytes.now result }
    ensures forgets { IfSome read (λ old. ForgetsAt old result) }
{
    match read {
        Some(watcher) => watcher.step(alloc, budget, bytes),
        None => open(alloc, bytes),
    }
}

/// The header.
fn open(alloc: Global, bytes: &[u8]) -> Step
    ensures { TakesLine None bytes.now result }
{
    let header = match read_watch_header(alloc, bytes) {
        Ok(header) => header,
        Err(why) => return Step::Stops(Err(refusal_at(HEADER, why))),
    };
    match Watcher::new(alloc, header) {
        Ok(watcher) => Step::GoesOn(watcher),
        Err(_) => Step::Stops(Err(NO_MEMORY)),
    }
}

/// What is told where no line follows those that were read, if any were.
pub fn watch_end(alloc: Global, budget: usize, read: Option<Watcher>) -> Result<Told, WatchFault>
    requires { (seen : Option LinesSeen) × KnowsIf seen read }
    ensures { (seen : Option LinesSeen) → KnowsIf seen read → TellsIf (IsLastAnswer seen) result }
{
    match read {
        Some(watcher) => watcher.end(alloc, budget),
        None => Err(refusal_at(HEADER, DocError::NotJson)),
    }
}

/// Takes an operation, which stands on this line.
fn take_lined(
    watch: &mut Watch<LinedRegister, Lined>,
    op: Operation<Exchange>,
    line: usize,
) -> Result<(), AllocError>
    requires forward { IfSome op.ends (λ end. op.starts ≤ end) }
    requires above { watch.old.moment ≤ op.starts }
    ensures moment { OnOk result (watch.new.moment ≡ watch.old.moment) }
    ensures taken { OnOk result ((log : List (Operation Lined)) → IsWatchOf lined_after opened log watch.old →
        IsWatchOf lined_after opened (log ++ lined_op op line ∷ []) watch.new) }
    ensures held { OnOk result (AreHeldWith (lined_op op line) watch.old.held.items watch.new.held.items) }
{
    let lined = Operation {
        starts: op.starts,
        ends: op.ends,
        maybe: op.maybe,
        what: Lined {
            what: op.what,
            line,
        },
    };
    match take(watch, lined) {
        Ok(()) => Ok(()),
        Err(WatchError::NoMemory) => Err(AllocError),
        Err(WatchError::Backwards) | Err(WatchError::Late) => unreachable!(),
    }
}

/// Nothing more begins before this moment, which is later than the watch's.
fn rise_before(
    alloc: Global,
    watch: Watch<LinedRegister, Lined>,
    moment: u64,
    budget: usize,
) -> Result<Risen<LinedRegister, Lined>, AllocError>
    requires ahead { AreAhead 0 watch.held.items }
    requires later { watch.moment < moment }
    ensures held { IfOk result (IsLedToOpen lined_after watch.held.items) }
    ensures risen { IfOk result (λ risen. (log : List (Operation Lined)) → IsWatchOf lined_after opened log watch →
        IsRisenBefore log watch.moment moment risen) }
{
    rise(alloc, watch, moment - 1, budget)
}

/// How a refusal of this line is told.
fn refusal_at(line: usize, why: DocError) -> WatchFault
    ensures { result ≡ refusal_at line why }
{
    WatchFault::Refused(refused_at(line, why))
}

/// Whether an operation may have this key.
fn has_key(all: &Option<Option<String>>, key: &Option<String>) -> bool
    ensures { result ≡ has_key (option_map (option_map string_bytes) all.now) (option_map string_bytes key.now) }
{
    match all {
        Some(all) => same_key(all, key),
        None => true,
    }
}

/// The key of all operations is that of the first.
fn keep_key(
    alloc: Global,
    all: &mut Option<Option<String>>,
    key: &Option<String>,
) -> Result<(), AllocError>
    ensures { OnOk result (option_map (option_map string_bytes) all.new
        ≡ key_with (option_map (option_map string_bytes) all.old) (option_map string_bytes key.now)) }
{
    if all.is_none() {
        *all = Some(copy_of(alloc, key)?);
    }
    Ok(())
}

fn copy_of(alloc: Global, key: &Option<String>) -> Result<Option<String>, AllocError>
    ensures { IfOk result (λ copy. option_map string_bytes copy ≡ option_map string_bytes key.now) }
{
    match key {
        Some(key) => {
            let copy = String::from_str(alloc, key.as_str())?;
            Ok(Some(copy))
        }
        None => Ok(None),
    }
}

/// The fault of an operation of this task that begins then, if it has one.
fn early_fault(
    tasks: &[Task],
    high: Option<Floor>,
    line: usize,
    who: Option<u64>,
    begins: u64,
) -> Option<WatchFault>
    ensures { result ≡ early_fault tasks.now high line who begins }
{
    if !is_named(tasks, who) {
        return Some(refusal_at(line, DocError::Law(Key::Who)));
    }
    match below(floor_of(tasks, who), line, begins) {
        Some(fault) => Some(fault),
        None => below(high, line, begins),
    }
}
