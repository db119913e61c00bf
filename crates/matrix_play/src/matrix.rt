//! The matrix and its events, each one whole access of a cell.

ghost use Rattle.std.specs.Prelude.{◌≡◌, ◌+◌, ◌-◌, ◌*◌, ◌<◌, ◌≤◌, length, vec_len, IfOk, Some, slice_get, slice_set};
ghost use Rattle.history_core.specs.Schedules.{max_limit};
ghost use Rattle.matrix_core.specs.declared.progress.Progress.{Progress};
ghost use Rattle.matrix_core.specs.Lines.{after_read, first_record, other};
ghost use Rattle.matrix_core.specs.inner.Operations.{greatest_own};
ghost use Rattle.matrix_play.specs.MatrixEvents.{Matrix, after_access, IsMatrix, opening_matrix, size, stage_of};

use history_core::Wish;
use matrix_core::{
    Outcome, Progress, Stamp, Stamped, cell_index, choose, done_at, filled, greatest_of, other,
    write_line,
};
use std::alloc::{AllocError, Global};
use std::marker::Model;

/// One event of a matrix.
#[derive(Clone, Copy, Debug, PartialEq, Eq)]
pub enum MatrixStage<R> {
    /// A cell of the process's column was read: the one that process `from` writes.
    Got { from: usize },
    /// A cell of the process's row was written: the one that process `to` reads.
    Put { to: usize },
    /// The last cell of the row was written, which ends the operation.
    Done(Outcome<R>),
}

/// The matrix of n processes: process i writes cell (i, j) and process j reads it. The cells stand row after row; a
/// process keeps its own record in its progress, and cell (i, i) isn't used.
#[derive(Drop)]
pub struct MatrixCore<R> {
    limit: u64,
    cells: Vec<Stamped<R>>,
    lines: Vec<Progress<R>>,
}

impl<R> Model for MatrixCore<R> {
    ghost Value = { Matrix R };

    ghost view = { λ m. record { limit = m.limit; cells = m.cells.items; lines = m.lines.items } };

    ghost invariant = { λ m. IsMatrix (record { limit = m.limit; cells = m.cells.items; lines = m.lines.items }) };
}

impl<R: Copy> MatrixCore<R> {
    /// The matrix of `n` processes in which every record is the opening, with tag 0 of writer 0.
    pub fn new(alloc: Global, n: usize, limit: u64, opening: R) -> Result<MatrixCore<R>, AllocError>
        requires processes { 2 ≤ n × n ≤ 16 }
        requires limit { 1 ≤ limit × limit ≤ max_limit }
        ensures matrix { IfOk result (λ core. core ≡ opening_matrix n limit opening) }
        ensures size { IfOk result (λ core. size core ≡ n) }
    {
        let first = Stamped {
            stamp: Stamp { tag: 0, writer: 0 },
            item: opening,
        };
        let line = Progress {
            done: 0,
            wish: Wish::Read,
            seen: first,
            own: first,
            outcome: Outcome::Seen(first),
        };
        Ok(MatrixCore {
            limit,
            cells: filled(alloc, first, n * n)?,
            lines: filled(alloc, line, n)?,
        })
    }

    /// How far a process is.
    pub(crate) fn line(&self, process: usize) -> &Progress<R>
        requires { process < size self.now }
        ensures at { slice_get self.now.lines process ≡ Some result.now }
        ensures matrix { IsMatrix self.now }
    {
        &self.lines[process]
    }

    /// The greatest record that a process has, of equal stamps that of the smaller process number, where all began with
    /// the opening.
    pub(crate) fn greatest(&self, opening: R) -> R
        ensures { result ≡ (greatest_own (first_record opening) self.now.lines).item }
    {
        greatest_of(&self.lines, opening)
    }

    /// The next access of a process: it reads a cell of its column, or writes one of its row. The wish counts at the
    /// first access of an operation and has no effect at the others.
    pub fn step(&mut self, process: usize, wish: Wish<R>) -> MatrixStage<R>
        requires { process < size self.old }
        ensures matrix { self.new ≡ after_access self.old process wish }
        ensures stage { result ≡ stage_of self.old process }
        ensures size { size self.new ≡ size self.old }
    {
        let n = self.lines.len();
        let done = done_at(&self.lines, process);
        if done + 1 < n {
            let from = other(process, done);
            let answer = cell_at(&self.cells, cell_index(n, from, process));
            read_line(
                n,
                self.limit,
                process,
                &mut self.lines[process],
                wish,
                answer,
            );
            return MatrixStage::Got { from };
        }
        let to = other(process, done + 1 - n);
        put_cell(
            &mut self.cells,
            cell_index(n, process, to),
            self.lines[process].own,
        );
        let stage = if done + 3 == 2 * n {
            MatrixStage::Done(self.lines[process].outcome)
        } else {
            MatrixStage::Put { to }
        };
        write_line(n, &mut self.lines[process]);
        stage
    }
}

fn cell_at<R: Copy>(cells: &[Stamped<R>], index: usize) -> &Stamped<R>
    requires { index < length cells.now }
    ensures { slice_get cells.now index ≡ Some result.now }
{
    &cells[index]
}

fn put_cell<R: Copy>(cells: &mut Vec<Stamped<R>>, index: usize, item: Stamped<R>)
    requires { index < vec_len cells.old }
    ensures { cells.new.items ≡ slice_set cells.old.items index item }
{
    cells[index] = item;
}

fn read_line<R: Copy>(
    n: usize,
    limit: u64,
    process: usize,
    line: &mut Progress<R>,
    wish: Wish<R>,
    answer: &Stamped<R>,
)
    requires { line.old.done + 1 < n }
    ensures { line.new ≡ after_read n limit process wish line.old answer.now }
{
    if line.done == 0 {
        line.wish = wish;
        line.seen = line.own;
    }
    line.seen.raise(answer);
    line.done += 1;
    if line.done + 1 == n {
        choose(limit, process, line);
    }
}
