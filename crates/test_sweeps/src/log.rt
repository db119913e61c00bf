//! A log in a line: words between blanks. The first is the object, then come numbers of its own, the budget, and the
//! operations. One is STARTS,ENDS,MAYBE,KIND,FIRST,SECOND, with `-` for an end that it hasn't, and 0 or 1 for MAYBE.

use object_core::{Object, Operation};
use object_registers::{Access, Exchange, Exchanging, Limited, LimitedExchanging};
use object_sweep::{SweepError, Verdict, sweep};
use std::alloc::{AllocError, AllocFailed, Global};

/// What is told of a line.
#[derive(Clone, Copy, Debug, PartialEq, Eq)]
pub enum Judged {
    As(Verdict),
    Backwards { place: usize },
    NoMemory,
    NoLog,
}

impl From<AllocError> for Judged {
    fn from(_error: AllocError) -> Judged {
        Judged::NoMemory
    }
}

impl<T: Drop> From<AllocFailed<T>> for Judged {
    fn from(_failed: AllocFailed<T>) -> Judged {
        Judged::NoMemory
    }
}

impl From<SweepError> for Judged {
    fn from(error: SweepError) -> Judged {
        match error {
            SweepError::NoMemory => Judged::NoMemory,
            SweepError::Backwards { place } => Judged::Backwards { place },
        }
    }
}

/// The verdict on the log of this line.
pub fn judge(alloc: Global, line: &str) -> Judged {
    match judge_words(alloc, line) {
        Ok(verdict) => Judged::As(verdict),
        Err(judged) => judged,
    }
}

/// An object whose operations have words.
trait Worded: Object {
    /// What an operation of this kind does, with these numbers.
    fn what(kind: &str, first: u64, second: u64) -> Option<Self::What>;
}

fn exchange(kind: &str, first: u64, second: u64) -> Option<Exchange> {
    Some(match kind {
        "sets" => Exchange::Sets(first),
        "gets" => Exchange::Gets(first),
        "swaps" => Exchange::Swaps(first, second),
        "misses" => Exchange::Misses(first),
        "finds" => Exchange::Finds(first, second),
        "tries" => Exchange::Tries(first, second),
        "refuses" => Exchange::Refuses(first),
        _ => return None,
    })
}

impl Worded for Exchanging {
    fn what(kind: &str, first: u64, second: u64) -> Option<Exchange> {
        exchange(kind, first, second)
    }
}

impl Worded for LimitedExchanging {
    fn what(kind: &str, first: u64, second: u64) -> Option<Exchange> {
        exchange(kind, first, second)
    }
}

impl Worded for Limited {
    fn what(kind: &str, first: u64, _second: u64) -> Option<Access> {
        Some(match kind {
            "writes" => Access::Writes(first),
            "reads" => Access::Reads(first),
            "is_refused" => Access::IsRefused(first),
            _ => return None,
        })
    }
}

fn judge_words(alloc: Global, line: &str) -> Result<Verdict, Judged> {
    let words: Vec<&str> = line.split(' ').collect(alloc)?;
    match words.as_slice() {
        ["exchanging", held, budget, ops @ ..] => {
            let opening = Exchanging {
                held: number(held)?,
            };
            judge_log(alloc, opening, budget, ops)
        }
        ["limited", held, due, budget, ops @ ..] => {
            let opening = Limited {
                held: number(held)?,
                due: number(due)?,
            };
            judge_log(alloc, opening, budget, ops)
        }
        ["limited_exchanging", held, due, budget, ops @ ..] => {
            let opening = LimitedExchanging {
                held: number(held)?,
                due: number(due)?,
            };
            judge_log(alloc, opening, budget, ops)
        }
        _ => Err(Judged::NoLog),
    }
}

fn judge_log<O: Worded>(
    alloc: Global,
    opening: O,
    budget: &str,
    ops: &[&str],
) -> Result<Verdict, Judged> {
    let mut log = Vec::with_capacity(alloc, ops.len())?;
    for word in ops {
        log.push(operation::<O>(alloc, word)?)?;
    }
    let budget = budget.parse().map_err(|_| Judged::NoLog)?;
    Ok(sweep(alloc, opening, log.as_slice(), budget)?)
}

fn operation<O: Worded>(alloc: Global, word: &str) -> Result<Operation<O::What>, Judged> {
    let parts: Vec<&str> = word.split(',').collect(alloc)?;
    let [starts, ends, maybe, kind, first, second] = parts.as_slice() else {
        return Err(Judged::NoLog);
    };
    let what = O::what(kind, number(first)?, number(second)?).ok_or(Judged::NoLog)?;
    Ok(Operation {
        starts: number(starts)?,
        ends: end(ends)?,
        maybe: *maybe == "1",
        what,
    })
}

fn end(word: &str) -> Result<Option<u64>, Judged> {
    if word == "-" {
        return Ok(None);
    }
    Ok(Some(number(word)?))
}

fn number(word: &str) -> Result<u64, Judged> {
    word.parse().map_err(|_| Judged::NoLog)
}
