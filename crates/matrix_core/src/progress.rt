//! How far a process of a matrix is, whatever its cells are, and what an access makes of it.

ghost use Rattle.std.specs.Prelude.{◌≡◌, ◌+◌, ◌-◌, ◌*◌, ◌<◌, ◌≤◌, ℕ, length, replicate, IfOk, Some, slice_get};
ghost use Rattle.matrix_core.specs.declared.progress.Progress.{Progress};
ghost use Rattle.matrix_core.specs.Lines.{after_write, cell_place, chosen, first_record, other};
ghost use Rattle.matrix_core.specs.inner.Operations.{greatest_own};

use crate::{Stamp, Stamped};
use history_core::Wish;
use std::alloc::{AllocError, Global};

/// What an operation answers.
#[derive(Clone, Copy, Debug, PartialEq, Eq)]
pub enum Outcome<R> {
    /// A write took place, under this stamp.
    Written(Stamp),
    /// A read's answer.
    Seen(Stamped<R>),
    /// A write was refused; this is what it saw last.
    Ended(Stamped<R>),
}

/// How far a process is: the accesses that its operation has made, what the operation is to do, the greatest record
/// that it saw, the process's own record, and what the operation answers once it has chosen.
#[derive(Clone, Copy)]
pub struct Progress<R> {
    pub done: usize,
    pub wish: Wish<R>,
    pub seen: Stamped<R>,
    pub own: Stamped<R>,
    pub outcome: Outcome<R>,
}

/// The greatest own record, of equal stamps that of the smaller process number, where all began with the opening.
pub fn greatest_of<R: Copy>(lines: &[Progress<R>], opening: R) -> R
    ensures { result ≡ (greatest_own (first_record opening) lines.now).item }
{
    let mut greatest = Stamped {
        stamp: Stamp { tag: 0, writer: 0 },
        item: opening,
    };
    for line in lines {
        greatest.raise(&line.own);
    }
    greatest.item
}

/// The accesses that a process's operation has made.
pub fn done_at<R: Copy>(lines: &[Progress<R>], process: usize) -> usize
    requires process { process < length lines.now }
    requires small { length lines.now ≤ 16 }
    requires inside { (i : ℕ) (line : Progress R) → slice_get lines.now i ≡ Some line →
        line.done + 3 ≤ 2 * length lines.now }
    ensures at { (line : Progress R) × (slice_get lines.now process ≡ Some line) × (result ≡ line.done) }
    ensures inside { result + 3 ≤ 2 * length lines.now }
    ensures small { length lines.now ≤ 16 }
{
    lines[process].done
}

/// The place of the cell of this writer and this reader, row after row.
pub fn cell_index(n: usize, writer: usize, reader: usize) -> usize
    requires small { n ≤ 16 }
    requires writer { writer < n }
    requires reader { reader < n }
    ensures place { result ≡ cell_place n writer reader }
    ensures inside { result < n * n }
{
    writer * n + reader
}

/// A list of `count` times the same item.
pub fn filled<T: Copy + Drop>(alloc: Global, item: T, count: usize) -> Result<Vec<T>, AllocError>
    requires { count ≤ 256 }
    ensures { IfOk result (λ v. v.items ≡ replicate count item) }
{
    let mut items = Vec::with_capacity(alloc, count)?;
    for _i in 0..count {
        items.push(item)?;
    }
    Ok(items)
}

/// The other processes in rising order, from 0.
pub fn other(process: usize, k: usize) -> usize
    requires { k < 64 }
    ensures { result ≡ other process k }
{
    if k < process { k } else { k + 1 }
}

/// A process takes what it has seen, or its own record under the next stamp.
pub fn choose<R: Copy>(limit: u64, process: usize, line: &mut Progress<R>)
    ensures { line.new ≡ chosen limit process line.old }
{
    match line.wish {
        Wish::Read => {
            line.own = line.seen;
            line.outcome = Outcome::Seen(line.seen);
        }
        Wish::Write(item) => match line.seen.stamp.next(limit, process) {
            Some(stamp) => {
                line.own = Stamped { stamp, item };
                line.outcome = Outcome::Written(stamp);
            }
            None => {
                line.own = line.seen;
                line.outcome = Outcome::Ended(line.seen);
            }
        },
    }
}

/// A process has written one more cell.
pub fn write_line<R: Copy>(n: usize, line: &mut Progress<R>)
    requires inside { line.old.done + 3 ≤ 2 * n }
    requires small { n ≤ 16 }
    ensures { line.new ≡ after_write n line.old }
{
    line.done = if line.done + 3 == 2 * n {
        0
    } else {
        line.done + 1
    };
}
