ghost use Rattle.std.specs.Prelude.{◌≡◌, ◌+◌, cond, IfOk};
ghost use Rattle.exchanges_log.specs.ExchangeLogs.{is_uncertain};
ghost use Rattle.watch_lines.specs.inner.CountsOne.{CountsOne};

use object_core::Operation;
use object_registers::Exchange;
use program_runs::Fault;
use std::alloc::AllocError;

/// A moment before which no operation on a later line begins, and the line that says so.
#[derive(Clone, Copy, Debug, PartialEq, Eq)]
pub struct Floor {
    pub at: u64,
    pub line: usize,
}

/// How many operations a log has, how many of them are unfinished, how many ended and may have done nothing, and how
/// many floors there are.
#[derive(Clone, Copy, Debug, PartialEq, Eq)]
pub struct Counts {
    pub ops: usize,
    pub unfinished: usize,
    pub uncertain: usize,
    pub floors: usize,
}

impl Counts {
    /// No line yet.
    pub(crate) fn none() -> Counts
        ensures { result ≡ record { ops = 0; unfinished = 0; uncertain = 0; floors = 0 } }
    {
        Counts {
            ops: 0,
            unfinished: 0,
            uncertain: 0,
            floors: 0,
        }
    }

    /// With one operation more.
    pub(crate) fn with(self, op: &Operation<Exchange>) -> Result<Counts, AllocError>
        ensures { IfOk result (CountsOne self op.now) }
    {
        Ok(Counts {
            ops: more_if(self.ops, true)?,
            unfinished: more_if(self.unfinished, op.ends.is_none())?,
            uncertain: more_if(self.uncertain, is_uncertain(op))?,
            floors: self.floors,
        })
    }
}

/// One more, if this is so. No memory holds more than there are numbers.
fn more_if(count: usize, more: bool) -> Result<usize, AllocError>
    ensures { IfOk result (λ now. now ≡ count + cond more 1 0) }
{
    if !more {
        return Ok(count);
    }
    match count.checked_add(1) {
        Some(now) => Ok(now),
        None => Err(AllocError),
    }
}

fn is_uncertain(op: &Operation<Exchange>) -> bool
    ensures { result ≡ is_uncertain op.now }
{
    op.ends.is_some() && op.maybe
}

/// What is told of a log that was watched. Lines are counted from 1, the header's.
#[derive(Clone, Copy, Debug, PartialEq, Eq)]
pub enum Told {
    /// It has a lawful order.
    Lawful {
        counts: Counts,
        /// Whether its end is there.
        ended: bool,
    },
    /// At this moment it is lost, when the operation on this line ended.
    Lost {
        at: u64,
        line: usize,
    },
}

/// Why nothing is told.
#[derive(Clone, Copy)]
pub enum WatchFault {
    Refused(Fault),
    /// The operation on a line begins below the floor of an earlier one.
    Below { line: usize, floor: usize },
}
