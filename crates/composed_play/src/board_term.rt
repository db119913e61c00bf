//! The player: a schedule over a composed board, control step by control step.

ghost use Rattle.std.specs.Prelude.{◌≡◌, ◌+◌, ◌-◌, ◌*◌, ◌/◌, ◌<◌, ◌≤◌, ◌^◌, ◌++◌, ℕ, List, length, replicate};
ghost use Rattle.std.specs.Prelude.{vec_len, IfOk, IsSome, OnOk};
ghost use Rattle.std.specs.Prelude.{Option, None, Some, slice_get, slice_set};
ghost use Rattle.history_core.specs.Schedules.{max_limit, Overruns};
ghost use Rattle.matrix_core.specs.inner.Operations.{begun_op};
ghost use Rattle.matrix_core.specs.Runs.{IsTerm, max_position};
ghost use Rattle.matrix_core.specs.Runs.{board_span};
ghost use Rattle.composed_play.specs.inner.BoardPlays.{next_seat, noted, board_play_of, told_ops, told_stamps};

use crate::board::BoardCore;
use history_core::{Items, Op, Wish};
use matrix_core::{MatrixTerm, Progress, Stamp, begun_op, chose, ended, filled, planned};
use std::alloc::{AllocError, Global};
use std::marker::Model;

/// Where a process is in its plan: the number of its operation, the steps of it that are made, and the place that it
/// has among the operations of all processes.
#[derive(Clone, Copy)]
pub struct BoardSeat {
    pub place: usize,
    pub operation: usize,
    pub made: usize,
}

/// The slots of one operation's accesses.
#[derive(Drop)]
pub struct Row {
    slots: Vec<Option<u8>>,
}

impl Model for Row {
    ghost Value = { List (Option ℕ) };

    ghost view = { λ r. r.slots.items };
}

impl Row {
    fn new(alloc: Global, accesses: usize) -> Result<Row, AllocError>
        requires { accesses ≤ 256 }
        ensures { IfOk result (λ row. row ≡ replicate accesses None) }
    {
        Ok(Row {
            slots: filled(alloc, None, accesses)?,
        })
    }

    fn set(&mut self, access: usize, slot: Option<u8>)
        requires { access < length self.old }
        ensures { self.new ≡ slice_set self.old access slot }
    {
        self.slots[access] = slot;
    }

    fn into_items(self) -> Items<Option<u8>>
        ensures { result ≡ self }
    {
        Items::new(self.slots)
    }
}

/// One term while it is played.
#[derive(Drop)]
pub struct BoardPlay<R> {
    board: BoardCore<R>,
    now: u64,
    seats: Vec<BoardSeat>,
    ops: Vec<Op<R>>,
    stamps: Vec<Option<Stamp>>,
    slots: Vec<Row>,
}

impl<R> Model for BoardPlay<R> {
    ghost use Rattle.composed_play.specs.inner.BoardPlays.{BoardPlaying};

    ghost Value = { BoardPlaying R };

    ghost view = { λ p.
        record {
          board = p.board;
          now = p.now;
          seats = p.seats.items;
          ops = p.ops.items;
          stamps = p.stamps.items;
          slots = p.slots.items;
        } };
}

impl<R: Copy> BoardPlay<R> {
    ghost use Rattle.composed_play.specs.inner.BoardPlays.{after_board_step, CanHappen, CanStep};
    ghost use Rattle.composed_play.specs.inner.BoardPlays.{happened, next_board_opening};
    ghost use Rattle.composed_play.specs.inner.BoardPlays.{opened_first};
    ghost use Rattle.composed_play.specs.inner.BoardPlays.{opening_board_play, wish_now};

    fn new(
        alloc: Global,
        n: usize,
        limit: u64,
        opening: R,
        noise: R,
        now: u64,
    ) -> Result<BoardPlay<R>, AllocError>
        requires processes { 2 ≤ n × n ≤ 16 }
        requires limit { 1 ≤ limit × limit ≤ max_limit }
        ensures { IfOk result (λ play. play ≡ opening_board_play n limit opening noise now) }
    {
        let first = BoardSeat {
            place: 0,
            operation: 0,
            made: 0,
        };
        Ok(BoardPlay {
            board: BoardCore::new(alloc, n, limit, opening, noise)?,
            now,
            seats: filled(alloc, first, n)?,
            ops: Vec::new(alloc),
            stamps: Vec::new(alloc),
            slots: Vec::new(alloc),
        })
    }

    /// The greatest record that a process has, of equal stamps that of the smaller process number.
    pub(crate) fn greatest(&self, opening: R) -> R
        ensures { result ≡ next_board_opening opening self.entry.now }
    {
        self.board.greatest(opening)
    }

    /// Gives the operations with their stamps to the end of those of the terms before.
    pub(crate) fn give(
        self,
        ops: &mut Vec<Op<R>>,
        stamps: &mut Vec<Option<Stamp>>,
        slots: &mut Vec<Items<Option<u8>>>,
    ) -> Result<(), AllocError>
        ensures ops { OnOk result (ops.new.items ≡ ops.old.items ++ self.ops) }
        ensures stamps { OnOk result (stamps.new.items ≡ stamps.old.items ++ self.stamps) }
        ensures slots { OnOk result (slots.new.items ≡ slots.old.items ++ self.slots) }
    {
        let mut play = self;
        ops.append(&mut play.ops)?;
        stamps.append(&mut play.stamps)?;
        for row in play.slots {
            slots.push(row.into_items())?;
        }
        Ok(())
    }

    /// The next step, which is one of process `who`.
    fn step(
        &mut self,
        alloc: Global,
        plans: &[Items<Wish<R>>],
        who: usize,
    ) -> Result<(), AllocError>
        requires { CanStep plans.now self.old who }
        ensures { OnOk result (self.new ≡ after_board_step plans.now self.old who) }
    {
        let wish = self.wish(plans, who);
        self.open_first(alloc, who, wish)?;
        self.happen(who, wish);
        Ok(())
    }

    /// What the operation of a process is to do.
    fn wish(&self, plans: &[Items<Wish<R>>], who: usize) -> Wish<R>
        requires seats { who < length self.now.seats }
        requires plan { IsSome (wish_now plans.now self.now who) }
        ensures { wish_now plans.now self.entry.now who ≡ Some result }
    {
        planned(plans, who, self.seats[who].operation)
    }

    /// Where the step is the first one of an operation, the operation begins.
    fn open_first(&mut self, alloc: Global, who: usize, wish: Wish<R>) -> Result<(), AllocError>
        requires seats { who < length self.old.seats × length self.old.seats ≤ 16 }
        ensures { OnOk result (self.new ≡ opened_first self.old who wish) }
    {
        let seat = self.seats[who];
        if seat.made > 0 {
            return Ok(());
        }
        let place = self.ops.len();
        self.ops.push(begun_op(who, self.now, wish))?;
        self.stamps.push(None)?;
        self.slots
            .push(Row::new(alloc, 2 * (self.seats.len() - 1))?)?;
        self.seats[who] = BoardSeat {
            place,
            operation: seat.operation,
            made: 0,
        };
        Ok(())
    }

    /// The step of a process whose operation has its place.
    fn happen(&mut self, who: usize, wish: Wish<R>)
        requires { CanHappen self.old who }
        ensures { self.new ≡ happened self.old who wish }
    {
        let n = self.seats.len();
        let seat = self.seats[who];
        let slot = self.board.step(who, wish);
        let line = self.board.line(who);
        tell_ops(n, seat, self.now, line, &mut self.ops);
        tell_stamps(n, seat, line, &mut self.stamps);
        note(seat.place, seat.made / 5, slot, &mut self.slots);
        self.now += 1;
        self.seats[who] = next_seat(n, seat);
    }
}

/// What a step makes of the operations: the one that chooses, and the last one.
fn tell_ops<R: Copy>(n: usize, seat: BoardSeat, now: u64, line: &Progress<R>, ops: &mut Vec<Op<R>>)
    requires processes { 2 ≤ n × n ≤ 16 }
    requires place { seat.place < vec_len ops.old }
    requires made { seat.made < 10 * (n - 1) }
    ensures { ops.new.items ≡ told_ops n seat now line.now ops.old.items }
{
    if seat.made == (n - 2) * 5 + 4 {
        ops[seat.place] = chose(line.outcome, ops[seat.place]);
    } else if seat.made + 1 == 10 * (n - 1) {
        ops[seat.place] = ended(now, line.outcome, ops[seat.place]);
    }
}

fn tell_stamps<R: Copy>(
    n: usize,
    seat: BoardSeat,
    line: &Progress<R>,
    stamps: &mut Vec<Option<Stamp>>,
)
    requires processes { 2 ≤ n × n ≤ 16 }
    requires place { seat.place < vec_len stamps.old }
    ensures { stamps.new.items ≡ told_stamps n seat line.now stamps.old.items }
{
    if seat.made == (n - 2) * 5 + 4 {
        stamps[seat.place] = Some(line.own.stamp);
    }
}

/// The slot that a step chose, where it chose one, is that of its access.
fn note(place: usize, access: usize, slot: Option<u8>, slots: &mut Vec<Row>)
    requires place { place < vec_len slots.old }
    requires access { (row : List (Option ℕ)) → slice_get slots.old.items place ≡ Some row → access < length row }
    ensures { slots.new.items ≡ noted place access slot slots.old.items }
{
    if slot.is_some() {
        slots[place].set(access, slot);
    }
}

/// The seat after a step: an operation that ends leaves it to the next one.
fn next_seat(n: usize, seat: BoardSeat) -> BoardSeat
    requires processes { 2 ≤ n × n ≤ 16 }
    requires made { seat.made < 10 * (n - 1) }
    requires count { seat.operation < max_position }
    ensures { result ≡ next_seat n seat }
{
    if seat.made + 1 == 10 * (n - 1) {
        BoardSeat {
            place: seat.place,
            operation: seat.operation + 1,
            made: 0,
        }
    } else {
        BoardSeat {
            place: seat.place,
            operation: seat.operation,
            made: seat.made + 1,
        }
    }
}

/// Plays one term, which begins at the position `now`.
pub(crate) fn play_board_term<R: Copy>(
    alloc: Global,
    opening: R,
    noise: R,
    term: &MatrixTerm<R>,
    now: u64,
) -> Result<BoardPlay<R>, AllocError>
    requires term { IsTerm term.now }
    requires left { (step : ℕ) → ¬ Overruns (board_span term.now) step }
    requires room { now + length term.now.steps + 1 < 2 ^ 64 }
    ensures { IfOk result (λ play. play ≡ board_play_of now opening noise term.now) }
{
    let plans = term.plans.as_slice();
    let mut play = BoardPlay::new(alloc, plans.len(), term.limit, opening, noise, now)?;
    for who in term.steps.as_slice() {
        play.step(alloc, plans, *who)?;
    }
    Ok(play)
}
