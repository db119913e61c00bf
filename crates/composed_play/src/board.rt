//! The composed board and its events: a matrix each of whose cells is a four-slot cell of its own.

ghost use Rattle.std.specs.Prelude.{◌≡◌, ◌+◌, ◌-◌, ◌*◌, ◌<◌, ◌≤◌, IfOk, replicate, Some, slice_get, slice_set, vec_len};
ghost use Rattle.history_core.specs.Schedules.{max_limit};
ghost use Rattle.four_slot_core.specs.declared.state.State.{State};
ghost use Rattle.four_slot_core.specs.Events.{IsReadEvent, IsWriteEvent, opening_state};
ghost use Rattle.matrix_core.specs.declared.stamp.Stamped.{Stamped};
ghost use Rattle.matrix_core.specs.declared.progress.Progress.{Progress};
ghost use Rattle.matrix_core.specs.Lines.{first_record};
ghost use Rattle.matrix_core.specs.inner.Operations.{greatest_own};
ghost use Rattle.composed_play.specs.BoardEvents.{after_event, Board, board_size, heard, IsBoard};
ghost use Rattle.composed_play.specs.BoardEvents.{opening_board, posted, read_slot};
ghost use Rattle.composed_play.specs.BoardEvents.{slot_of};
ghost use Rattle.composed_play.specs.BoardEvents.{write_slot};

use four_slot_core::{CellCore, ReadStage, Stage};
use history_core::Wish;
use matrix_core::{
    Outcome, Progress, Stamp, Stamped, cell_index, choose, done_at, filled, greatest_of, other,
    write_line,
};
use std::alloc::{AllocError, Global};
use std::marker::Model;

/// The board of n processes: process i writes cell (i, j) and process j reads it. The cells stand row after row; cell
/// (i, i) isn't used.
#[derive(Drop)]
pub struct BoardCore<R> {
    limit: u64,
    cells: Vec<CellCore<Stamped<R>>>,
    lines: Vec<Progress<R>>,
}

impl<R> Model for BoardCore<R> {
    ghost Value = { Board R };

    ghost view = { λ b. record { limit = b.limit; cells = b.cells.items; lines = b.lines.items } };

    ghost invariant = { λ b. IsBoard (record { limit = b.limit; cells = b.cells.items; lines = b.lines.items }) };
}

impl<R: Copy> BoardCore<R> {
    /// The board of `n` processes in which every record is the opening, with tag 0 of writer 0. A read of a cell whose
    /// slot access meets a write of the same slot answers `noise`, with the greatest tag.
    pub fn new(
        alloc: Global,
        n: usize,
        limit: u64,
        opening: R,
        noise: R,
    ) -> Result<BoardCore<R>, AllocError>
        requires processes { 2 ≤ n × n ≤ 16 }
        requires limit { 1 ≤ limit × limit ≤ max_limit }
        ensures board { IfOk result (λ core. core ≡ opening_board n limit opening noise) }
        ensures size { IfOk result (λ core. board_size core ≡ n) }
    {
        let first = Stamped {
            stamp: Stamp { tag: 0, writer: 0 },
            item: opening,
        };
        let never = Stamped {
            stamp: Stamp {
                tag: u64::MAX,
                writer: 0,
            },
            item: noise,
        };
        let line = Progress {
            done: 0,
            wish: Wish::Read,
            seen: first,
            own: first,
            outcome: Outcome::Seen(first),
        };
        Ok(BoardCore {
            limit,
            cells: cells_filled(alloc, first, never, n * n)?,
            lines: filled(alloc, line, n)?,
        })
    }

    /// How far a process is.
    pub(crate) fn line(&self, process: usize) -> &Progress<R>
        requires { process < board_size self.now }
        ensures at { slice_get self.now.lines process ≡ Some result.now }
        ensures board { IsBoard self.now }
    {
        &self.lines[process]
    }

    /// The greatest record that a process has, of equal stamps that of the smaller process number, where all began with
    /// the opening.
    pub(crate) fn greatest(&self, opening: R) -> R
        ensures { result ≡ (greatest_own (first_record opening) self.now.lines).item }
    {
        greatest_of(&self.lines, opening)
    }

    /// The next step of a process: one event of the cell whose access stands next for it. The wish counts at the first
    /// step of an operation and has no effect at the others. Tells the slot that the event chose, if it chose one.
    pub fn step(&mut self, process: usize, wish: Wish<R>) -> Option<u8>
        requires { process < board_size self.old }
        ensures board { self.new ≡ after_event self.old process wish }
        ensures slot { result ≡ slot_of self.old process }
        ensures size { board_size self.new ≡ board_size self.old }
    {
        let n = self.lines.len();
        let done = done_at(&self.lines, process);
        if done + 1 < n {
            let place = cell_index(n, other(process, done), process);
            let (stage, slot) = read_cell(&mut self.cells, place);
            hear(
                n,
                self.limit,
                process,
                &mut self.lines[process],
                wish,
                stage,
            );
            slot
        } else {
            let place = cell_index(n, process, other(process, done + 1 - n));
            let own = self.lines[process].own;
            let (stage, slot) = write_cell(&mut self.cells, place, own);
            post(n, &mut self.lines[process], stage);
            slot
        }
    }
}

/// So many new cells.
fn cells_filled<T: Copy>(
    alloc: Global,
    opening: T,
    noise: T,
    count: usize,
) -> Result<Vec<CellCore<T>>, AllocError>
    requires { count ≤ 256 }
    ensures { IfOk result (λ v. v.items ≡ replicate count (opening_state opening noise)) }
{
    let mut cells = Vec::with_capacity(alloc, count)?;
    for _i in 0..count {
        cells.push(CellCore::new(opening, noise))?;
    }
    Ok(cells)
}

/// The next event of the read of a cell, and the slot that it chose, if it chose one.
fn read_cell<R: Copy>(
    cells: &mut Vec<CellCore<Stamped<R>>>,
    place: usize,
) -> (ReadStage<Stamped<R>>, Option<u8>)
    requires { place < vec_len cells.old }
    ensures { (s t : State (Stamped R)) × (slice_get cells.old.items place ≡ Some s) × IsReadEvent s result.0 t
        × (cells.new.items ≡ slice_set cells.old.items place t) × (result.1 ≡ read_slot result.0 t) }
{
    let cell = &mut cells[place];
    let stage = cell.read_step();
    (stage, chosen_by_read(stage, cell))
}

fn chosen_by_read<R: Copy>(stage: ReadStage<Stamped<R>>, cell: &CellCore<Stamped<R>>) -> Option<u8>
    ensures { result ≡ read_slot stage cell.now }
{
    match stage {
        ReadStage::R3 => Some(cell.read_slot()),
        ReadStage::R1 | ReadStage::R2 | ReadStage::R4 | ReadStage::R5(_) => None,
    }
}

/// The next event of the write of a cell, and the slot that it chose, if it chose one.
fn write_cell<R: Copy>(
    cells: &mut Vec<CellCore<Stamped<R>>>,
    place: usize,
    item: Stamped<R>,
) -> (Stage, Option<u8>)
    requires { place < vec_len cells.old }
    ensures { (s t : State (Stamped R)) × (slice_get cells.old.items place ≡ Some s) × IsWriteEvent item s result.0 t
        × (cells.new.items ≡ slice_set cells.old.items place t) × (result.1 ≡ write_slot result.0 t) }
{
    let cell = &mut cells[place];
    let stage = cell.write_step(item);
    (stage, chosen_by_write(stage, cell))
}

fn chosen_by_write<R: Copy>(stage: Stage, cell: &CellCore<Stamped<R>>) -> Option<u8>
    ensures { result ≡ write_slot stage cell.now }
{
    match stage {
        Stage::W1 => Some(cell.write_slot()),
        Stage::W2 | Stage::W3 | Stage::W4 | Stage::W5 => None,
    }
}

/// What an event of a read of its column makes of a process's progress.
fn hear<R: Copy>(
    n: usize,
    limit: u64,
    process: usize,
    line: &mut Progress<R>,
    wish: Wish<R>,
    stage: ReadStage<Stamped<R>>,
)
    requires inside { line.old.done + 1 < n }
    requires small { n ≤ 16 }
    ensures { line.new ≡ heard n limit process wish stage line.old }
{
    match stage {
        ReadStage::R1 => {
            if line.done == 0 {
                line.wish = wish;
                line.seen = line.own;
            }
        }
        ReadStage::R2 | ReadStage::R3 | ReadStage::R4 => {}
        ReadStage::R5(answer) => {
            line.seen.raise(&answer);
            line.done += 1;
            if line.done + 1 == n {
                choose(limit, process, line);
            }
        }
    }
}

/// What an event of a write of its row makes of it.
fn post<R: Copy>(n: usize, line: &mut Progress<R>, stage: Stage)
    requires inside { line.old.done + 3 ≤ 2 * n }
    requires small { n ≤ 16 }
    ensures { line.new ≡ posted n stage line.old }
{
    match stage {
        Stage::W1 | Stage::W2 | Stage::W3 | Stage::W4 => {}
        Stage::W5 => write_line(n, line),
    }
}
