//! The report of a schedule, put together from its operations, the run and the order.

ghost use Rattle.std.specs.Prelude.{◌≡◌, length, map, IfOk};
ghost use Rattle.four_slot_core.specs.declared.schedule.Turn.TheVariants.{Reader, Writer};
ghost use Rattle.four_slot_play.specs.inner.Parts.{op_of, slot_of};
ghost use Rattle.four_slot_play.specs.inner.Runs.{IsAssembled, numbered_run};
ghost use Rattle.four_slot_play.specs.inner.Weaves.{HasFirst, SidesInTurn, IsOrdered, NumbersBelow, NumbersRise};

use super::order::{places, weave};
use super::run::{InPlay, play};
use super::steps::{Operations, Started, read_steps};
use four_slot_core::{CellReport, Turn};
use history_core::{History, Items, Kind, MAX_LIMIT, Op, Term};
use std::alloc::{AllocError, Global};

/// A schedule that was played.
#[derive(Drop)]
struct Played<R> {
    all: Operations,
    run: InPlay<R>,
}

impl<R: Copy> Played<R> {
    fn operation(&self, part: &Started, writes: &[R]) -> Op<R>
        ensures { result
            ≡ op_of writes.now self.now.all.writer_ends.items self.now.all.reader_ends.items
            self.now.run.answers.items part.now }
    {
        match part.turn {
            Turn::Writer => Op {
                who: 0,
                kind: Kind::Write,
                starts: part.starts,
                ends: self.all.writer_ends.get(part.number).copied(),
                item: writes.get(part.number).copied(),
            },
            Turn::Reader => Op {
                who: 1,
                kind: Kind::Read,
                starts: part.starts,
                ends: self.all.reader_ends.get(part.number).copied(),
                item: self.run.answers.get(part.number).map(|answer| answer.item),
            },
        }
    }

    fn slot(&self, part: &Started) -> Option<u8>
        ensures { result ≡ slot_of self.now.run.write_slots.items self.now.run.read_slots.items part.now }
    {
        match part.turn {
            Turn::Writer => self.run.write_slots.get(part.number).copied(),
            Turn::Reader => self.run.read_slots.get(part.number).copied(),
        }
    }

    fn operations(
        &self,
        alloc: Global,
        parts: &[Started],
        writes: &[R],
    ) -> Result<Vec<Op<R>>, AllocError>
        ensures { IfOk result (λ ops. ops.items
            ≡ map
            (op_of writes.now self.now.all.writer_ends.items self.now.all.reader_ends.items self.now.run.answers.items)
            parts.now) }
    {
        let mut ops = Vec::with_capacity(alloc, parts.len())?;
        for part in parts {
            ops.push(self.operation(part, writes))?;
        }
        Ok(ops)
    }

    fn slots(&self, alloc: Global, parts: &[Started]) -> Result<Vec<Option<u8>>, AllocError>
        ensures { IfOk result
            (λ slots. slots.items
            ≡ map (slot_of self.now.run.write_slots.items self.now.run.read_slots.items) parts.now) }
    {
        let mut slots = Vec::with_capacity(alloc, parts.len())?;
        for part in parts {
            slots.push(self.slot(part))?;
        }
        Ok(slots)
    }

    /// The order: each finished read after the write with its number and before the next one.
    fn order(&self, alloc: Global, parts: &[Started]) -> Result<Vec<usize>, AllocError>
        requires in_turn { SidesInTurn parts.now }
        requires writes { HasFirst Writer (length self.now.all.stores.items) parts.now }
        requires reads { HasFirst Reader (length self.now.run.answers.items) parts.now }
        requires rising { NumbersRise self.now.run.answers.items }
        requires below { NumbersBelow (length self.now.all.stores.items) self.now.run.answers.items }
        ensures { IfOk result
            (λ order. IsOrdered parts.now (length self.now.all.stores.items) self.now.run.answers.items order.items) }
    {
        let writes = places(alloc, parts, Turn::Writer, self.all.stores.len())?;
        let reads = places(alloc, parts, Turn::Reader, self.run.answers.len())?;
        weave(alloc, &writes, &reads, &self.run.answers)
    }
}

/// Plays steps of which each has an operation left.
pub(super) fn assemble<R: Copy>(
    alloc: Global,
    opening: R,
    noise: R,
    steps: &[Turn],
    writes: &[R],
) -> Result<CellReport<R>, AllocError>
    ensures opening { IfOk result (λ r. r.history.opening ≡ opening) }
    ensures assembled { IfOk result (λ r.
        IsAssembled (numbered_run opening noise writes.now steps.now)
        steps.now writes.now r.history.terms r.history.ops r.slots r.order) }
{
    let played = Played {
        all: read_steps(alloc, steps)?,
        run: play(alloc, opening, noise, steps, writes)?,
    };
    let parts = played.all.parts.as_slice();
    let mut terms = Vec::new(alloc);
    terms.push(Term {
        first: 0,
        limit: MAX_LIMIT,
    })?;
    let ops = played.operations(alloc, parts, writes)?;
    let slots = played.slots(alloc, parts)?;
    let order = played.order(alloc, parts)?;
    Ok(CellReport {
        history: History {
            opening,
            terms: Items::new(terms),
            ops: Items::new(ops),
        },
        slots: Items::new(slots),
        order: Items::new(order),
    })
}
