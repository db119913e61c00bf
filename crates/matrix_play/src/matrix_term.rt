//! The player: a schedule over a matrix, step by step.

ghost use Rattle.std.specs.Prelude.{◌≡◌, ◌+◌, ◌-◌, ◌*◌, ◌<◌, ◌≤◌, ◌^◌, ◌++◌, ℕ, List, length, replicate};
ghost use Rattle.std.specs.Prelude.{vec_len, IfNone, IfOk, IfSome};
ghost use Rattle.std.specs.Prelude.{IsSome, OnOk, Some, slice_get, slice_set};
ghost use Rattle.std.specs.List.{fold};
ghost use Rattle.history_core.specs.Schedules.{HasOperations, IsFirstOverrun, max_limit, Overruns};
ghost use Rattle.matrix_core.specs.declared.schedule.MatrixTerm.{MatrixTerm};
ghost use Rattle.matrix_core.specs.declared.progress.Progress.{Progress};
ghost use Rattle.matrix_core.specs.inner.Operations.{begun_op, chose, ended};
ghost use Rattle.matrix_play.specs.inner.MatrixPlays.{matrix_play_of};
ghost use Rattle.matrix_core.specs.Runs.{IsTerm, span_of};

use crate::matrix::MatrixCore;
use history_core::{Items, Op, Wish};
use matrix_core::{MatrixTerm, Stamp, begun_op, chose, ended, filled, planned};
use std::alloc::{AllocError, Global};
use std::marker::Model;

/// Where a process is in its plan: the place of its newest operation, and how many operations it has begun.
#[derive(Clone, Copy)]
pub struct Seat {
    pub place: usize,
    pub begun: usize,
}

/// One term while it is played.
#[derive(Drop)]
pub struct Play<R> {
    core: MatrixCore<R>,
    now: u64,
    seats: Vec<Seat>,
    ops: Vec<Op<R>>,
    stamps: Vec<Option<Stamp>>,
}

impl<R> Model for Play<R> {
    ghost use Rattle.matrix_play.specs.inner.MatrixPlays.{MatrixPlaying};

    ghost Value = { MatrixPlaying R };

    ghost view = { λ p.
        record { matrix = p.core; now = p.now; seats = p.seats.items; ops = p.ops.items; stamps = p.stamps.items } };
}

impl<R: Copy> Play<R> {
    ghost use Rattle.matrix_play.specs.MatrixEvents.{size};
    ghost use Rattle.matrix_play.specs.inner.MatrixPlays.{accesses, after_step, began, CanAccess, IsReady};
    ghost use Rattle.matrix_play.specs.inner.MatrixPlays.{next_opening, next_wish};
    ghost use Rattle.matrix_play.specs.inner.MatrixPlays.{opening_matrix_play, seat_of};

    fn new(alloc: Global, n: usize, limit: u64, opening: R, now: u64) -> Result<Play<R>, AllocError>
        requires processes { 2 ≤ n × n ≤ 16 }
        requires limit { 1 ≤ limit × limit ≤ max_limit }
        ensures { IfOk result (λ play. play ≡ opening_matrix_play n limit opening now) }
    {
        Ok(Play {
            core: MatrixCore::new(alloc, n, limit, opening)?,
            now,
            seats: filled(alloc, Seat { place: 0, begun: 0 }, n)?,
            ops: Vec::new(alloc),
            stamps: Vec::new(alloc),
        })
    }

    /// The greatest record that a process has, of equal stamps that of the smaller process number.
    pub(crate) fn greatest(&self, opening: R) -> R
        ensures { result ≡ next_opening opening self.entry.now }
    {
        self.core.greatest(opening)
    }

    /// Gives the operations with their stamps to the end of those of the terms before.
    pub(crate) fn give(
        self,
        ops: &mut Vec<Op<R>>,
        stamps: &mut Vec<Option<Stamp>>,
    ) -> Result<(), AllocError>
        ensures ops { OnOk result (ops.new.items ≡ ops.old.items ++ self.ops) }
        ensures stamps { OnOk result (stamps.new.items ≡ stamps.old.items ++ self.stamps) }
    {
        let mut play = self;
        ops.append(&mut play.ops)?;
        stamps.append(&mut play.stamps)?;
        Ok(())
    }

    /// The next step, which is one of process `who`.
    fn step(&mut self, plans: &[Items<Wish<R>>], who: usize) -> Result<(), AllocError>
        requires { IsReady plans.now self.old who }
        ensures { OnOk result (self.new ≡ after_step plans.now self.old who) }
    {
        let wish = if self.core.line(who).done == 0 {
            self.begin(plans, who)?
        } else {
            Wish::Read
        };
        self.access(who, wish);
        Ok(())
    }

    /// Begins the next operation of a process, and tells what it is to do.
    fn begin(&mut self, plans: &[Items<Wish<R>>], who: usize) -> Result<Wish<R>, AllocError>
        requires seats { who < length self.old.seats }
        requires plan { IsSome (next_wish plans.now self.old who) }
        requires small { (seat_of self.old who).begun + 1 < 2 ^ 64 }
        ensures { IfOk result (λ wish. (next_wish plans.now self.old who ≡ Some wish)
            × (self.new ≡ began self.old who wish)) }
    {
        let seat = self.seats[who];
        let wish = planned(plans, who, seat.begun);
        let place = self.ops.len();
        self.ops.push(begun_op(who, self.now, wish))?;
        self.stamps.push(None)?;
        self.seats[who] = Seat {
            place,
            begun: seat.begun + 1,
        };
        Ok(wish)
    }

    /// The access that stands next for a process.
    fn access(&mut self, who: usize, wish: Wish<R>)
        requires { CanAccess self.old who }
        ensures { (line : Progress R) × (slice_get self.old.matrix.lines who ≡ Some line)
            × (self.new ≡ accesses self.old who wish line) }
    {
        let n = self.seats.len();
        let now = self.now;
        let place = self.seats[who].place;
        let done = self.core.line(who).done;
        self.core.step(who, wish);
        self.now += 1;
        if done + 2 == n {
            let line = self.core.line(who);
            self.ops[place] = chose(line.outcome, self.ops[place]);
            self.stamps[place] = Some(line.own.stamp);
        } else if done + 3 == 2 * n {
            self.ops[place] = ended(now, self.core.line(who).outcome, self.ops[place]);
        }
    }
}

/// Plays one term, which begins at the position `now`.
pub(crate) fn play_term<R: Copy>(
    alloc: Global,
    opening: R,
    term: &MatrixTerm<R>,
    now: u64,
) -> Result<Play<R>, AllocError>
    requires term { IsTerm term.now }
    requires left { (step : ℕ) → ¬ Overruns (span_of term.now) step }
    requires room { now + length term.now.steps + 1 < 2 ^ 64 }
    ensures { IfOk result (λ play. play ≡ matrix_play_of now opening term.now) }
{
    let plans = term.plans.as_slice();
    let mut play = Play::new(alloc, plans.len(), term.limit, opening, now)?;
    for who in term.steps.as_slice() {
        play.step(plans, *who)?;
    }
    Ok(play)
}
