//! A log as it comes, and what is known of it at each moment.

ghost use Rattle.std.specs.Prelude.{◌≡◌, ◌↔◌, ◌<◌, ◌≤◌, ◌+◌, ◌++◌, ◌∷◌, [], ℕ, List, IfErr, IfOk};
ghost use Rattle.std.specs.Prelude.{IsSomeAnd, IsTrue, OnOk, length};
ghost use Rattle.object_core.specs.declared.operation.Operation.{Operation};
ghost use Rattle.object_watch.specs.Remainders.{AreAhead, AreHeldWith};
ghost use Rattle.object_watch.specs.Watches.{AreOpenedAs, IsAheadOpen, IsLedToOpen, IsRisen, IsTakeFault, IsTimely};
ghost use Rattle.object_watch.specs.Watches.{IsVerdictOnAll, IsWatchOf};
ghost use Rattle.object_watch.specs.declared.watch.Risen.TheVariants.{Open};
ghost use Rattle.object_watch.specs.inner.Levels.{AreTaken};

use crate::ends::latest_end;
use crate::level::is_idle;
use crate::pass::{Passed, pass_ends};
use crate::remainder::Remainder;
use object_core::{Object, Operation};
use std::alloc::{AllocError, Global};

/// A log of an object that is watched as it comes: what its lawful orders so far leave.
#[derive(Drop)]
pub struct Watch<O, W> {
    /// The log is known up to before this moment: nothing that begins before it comes any more.
    pub moment: u64,
    pub held: Vec<Remainder<O, W>>,
}

/// Why an operation isn't taken.
#[derive(Clone, Copy, Debug, PartialEq, Eq, Drop)]
pub enum WatchError {
    NoMemory,
    /// It ended before it began.
    Backwards,
    /// It began before the watch's moment.
    Late,
}

/// What is known of a log up to a moment.
#[derive(Drop)]
pub enum Risen<O, W> {
    /// It has a lawful order.
    Open(Watch<O, W>),
    /// It is lost at this moment, whatever comes: `op` ends then.
    Lost { at: u64, op: Operation<W> },
    /// At this moment more was seen than the budget.
    TooMany { at: u64 },
}

/// What is known of a log to which nothing more comes.
#[derive(Clone, Copy, Debug, PartialEq, Eq, Drop)]
pub enum Ended<W> {
    /// It has a lawful order.
    Lawful,
    /// It has none, and is lost at this moment: `op` ends then.
    Lost { at: u64, op: Operation<W> },
    /// At this moment more was seen than the budget.
    TooMany { at: u64 },
}

/// A log without an operation, of an object that is as it was opened.
pub fn open_watch<O: Object>(alloc: Global, opening: O) -> Result<Watch<O, O::What>, AllocError>
    ensures moment { IfOk result (λ watch. watch.moment ≡ 0) }
    ensures opened { IfOk result (IsWatchOf O.after opening []) }
    ensures held { IfOk result (λ watch. AreOpenedAs opening watch.held.items) }
{
    let mut held = Vec::with_capacity(alloc, 1)?;
    held.push(Remainder {
        state: opening,
        rest: Vec::new(alloc),
    })?;
    Ok(Watch { moment: 0, held })
}

/// Whether an operation ended before it began.
fn is_backwards<W>(op: &Operation<W>) -> bool
    ensures { IsTrue result ↔ IsSomeAnd op.now.ends (λ end. end < op.now.starts) }
{
    match op.ends {
        Some(end) => end < op.starts,
        None => false,
    }
}

/// One more operation, which isn't held if no order needs it. After `NoMemory` some of what is held has it, so the
/// watch is of no use.
pub fn take<O: Object>(
    watch: &mut Watch<O, O::What>,
    op: Operation<O::What>,
) -> Result<(), WatchError>
    ensures timely { OnOk result (IsTimely watch.old.moment op) }
    ensures moment { OnOk result (watch.new.moment ≡ watch.old.moment) }
    ensures ahead { OnOk result (AreAhead 0 watch.old.held.items → AreAhead 0 watch.new.held.items) }
    ensures taken { OnOk result ((opening : O) (log : List (Operation O.What)) →
        IsWatchOf O.after opening log watch.old → IsWatchOf O.after opening (log ++ op ∷ []) watch.new) }
    ensures held { OnOk result (AreHeldWith op watch.old.held.items watch.new.held.items) }
    ensures fault { IfErr result (IsTakeFault op watch.old watch.new) }
{
    if op.starts < watch.moment {
        return Err(WatchError::Late);
    }
    if is_backwards(&op) {
        return Err(WatchError::Backwards);
    }
    if is_idle::<O>(&op) {
        return Ok(());
    }
    match push_all(&mut watch.held, op) {
        Ok(()) => Ok(()),
        Err(_) => Err(WatchError::NoMemory),
    }
}

fn push_all<O, W: Copy>(held: &mut Vec<Remainder<O, W>>, op: Operation<W>) -> Result<(), AllocError>
    ensures { OnOk result (AreTaken (length held.old.items) op held.old.items held.new.items) }
{
    for i in 0..held.len() {
        held[i].rest.push(op)?;
    }
    Ok(())
}

/// Nothing more begins by `last`: whether the log has a lawful order up to then, or the first moment at which it is
/// lost. No watch leaves the last moment of all behind: what ends then waits for `finish`. A watch that has risen
/// further stays as it is. It gives up at an end at which more is seen than `budget`: what is held, and what that leads
/// to by placing operations there.
pub fn rise<O: Object>(
    alloc: Global,
    watch: Watch<O, O::What>,
    last: u64,
    budget: usize,
) -> Result<Risen<O, O::What>, AllocError>
    requires { AreAhead 0 watch.held.items }
    ensures back { IfOk result (λ risen. last < watch.moment → risen ≡ Open watch) }
    ensures ahead { IfOk result IsAheadOpen }
    ensures held { IfOk result (IsLedToOpen O.after watch.held.items) }
    ensures risen { IfOk result (λ risen. (opening : O) (log : List (Operation O.What)) →
        IsWatchOf O.after opening log watch → IsRisen O.after opening log watch last risen) }
{
    let until = last.min(u64::MAX - 1);
    if until < watch.moment {
        return Ok(Risen::Open(watch));
    }
    let Watch { moment: _, held } = watch;
    match pass_ends(alloc, held, until, budget)? {
        Passed::Open(held) => Ok(Risen::Open(Watch {
            moment: until + 1,
            held,
        })),
        Passed::Lost { at, op } => Ok(Risen::Lost { at, op }),
        Passed::TooMany { at } => Ok(Risen::TooMany { at }),
    }
}

/// Nothing more comes at all: whether the whole log has a lawful order, or the first moment at which it is lost.
pub fn finish<O: Object>(
    alloc: Global,
    watch: Watch<O, O::What>,
    budget: usize,
) -> Result<Ended<O::What>, AllocError>
    requires { AreAhead 0 watch.held.items }
    ensures { IfOk result (λ ended. (opening : O) (log : List (Operation O.What)) →
        IsWatchOf O.after opening log watch → IsVerdictOnAll O.after opening log watch ended) }
{
    let Watch { moment, held } = watch;
    let last = latest_end(held.as_slice(), moment);
    match pass_ends(alloc, held, last, budget)? {
        Passed::Open(_held) => Ok(Ended::Lawful),
        Passed::Lost { at, op } => Ok(Ended::Lost { at, op }),
        Passed::TooMany { at } => Ok(Ended::TooMany { at }),
    }
}
