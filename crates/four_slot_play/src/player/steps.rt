//! Which operations a schedule's steps begin, and how far each comes.

ghost use Rattle.std.specs.Prelude.{◌≡◌, ◌+◌, ◌<◌, ◌^◌, ◌++◌, [], ◌∷◌, length, map, IfNone, IfOk, IfSome, OnOk};
ghost use Rattle.history_core.specs.Schedules.{HasOperations, IsFirstOverrun};
ghost use Rattle.four_slot_core.specs.Play.{actor, span_of};
ghost use Rattle.four_slot_core.specs.declared.schedule.Turn.TheVariants.{Reader, Writer};
ghost use Rattle.four_slot_play.specs.inner.Parts.{begun_by, counted, IsOperationsOf, made_by, makes, noted, plan_of};

use four_slot_core::Turn;
use std::alloc::{AllocError, Global};

/// The steps of one operation.
const ACCESSES: usize = 5;

/// How many steps each side has made.
#[derive(Clone, Copy)]
struct Made {
    writer: usize,
    reader: usize,
}

impl Made {
    fn by(&self, turn: Turn) -> usize
        ensures { result ≡ made_by turn self.now }
    {
        match turn {
            Turn::Writer => self.writer,
            Turn::Reader => self.reader,
        }
    }

    fn count(&mut self, turn: Turn)
        requires writer { self.old.writer + 1 < 2 ^ 64 }
        requires reader { self.old.reader + 1 < 2 ^ 64 }
        ensures { self.new ≡ counted turn self.old }
    {
        match turn {
            Turn::Writer => self.writer += 1,
            Turn::Reader => self.reader += 1,
        }
    }
}

/// How many operations a side is to do.
fn planned<R>(turn: Turn, writes: &[R], reads: u64) -> u64
    ensures { result ≡ length (plan_of turn writes.now reads) }
{
    match turn {
        Turn::Writer => writes.len() as u64,
        Turn::Reader => reads,
    }
}

/// The first step of a side that has no operation left.
pub(super) fn first_overrun<R>(steps: &[Turn], writes: &[R], reads: u64) -> Option<u64>
    ensures overrun { IfSome result (λ p. IsFirstOverrun (span_of steps.now writes.now reads ∷ []) p) }
    ensures none { IfNone result (HasOperations (span_of steps.now writes.now reads ∷ [])) }
{
    let mut made = Made {
        writer: 0,
        reader: 0,
    };
    for (position, turn) in steps.iter().enumerate() {
        if planned(*turn, writes, reads) <= (made.by(*turn) / ACCESSES) as u64 {
            return Some(position as u64);
        }
        made.count(*turn);
    }
    None
}

/// An operation of a side: its number on that side, from 0, and its beginning.
#[derive(Clone, Copy)]
pub(super) struct Started {
    pub(super) turn: Turn,
    pub(super) number: usize,
    pub(super) starts: u64,
}

/// What the steps say of the operations: those that begin, in order of beginning; the end of each that ends, by side;
/// and W4 of each write that makes it.
#[derive(Drop)]
pub(super) struct Operations {
    pub(super) parts: Vec<Started>,
    pub(super) writer_ends: Vec<u64>,
    pub(super) reader_ends: Vec<u64>,
    pub(super) stores: Vec<u64>,
}

impl Operations {
    /// Takes the step of this number of a side.
    fn take(&mut self, turn: Turn, step: usize, position: u64) -> Result<(), AllocError>
        ensures parts { OnOk result (self.new.parts.items ≡ self.old.parts.items ++ begun_by turn step position) }
        ensures writer_ends { OnOk result
            (self.new.writer_ends.items ≡ self.old.writer_ends.items ++ noted (makes turn step Writer 4) position) }
        ensures reader_ends { OnOk result
            (self.new.reader_ends.items ≡ self.old.reader_ends.items ++ noted (makes turn step Reader 4) position) }
        ensures stores { OnOk result
            (self.new.stores.items ≡ self.old.stores.items ++ noted (makes turn step Writer 3) position) }
    {
        match (turn, step % ACCESSES) {
            (_, 0) => self.parts.push(Started {
                turn,
                number: step / ACCESSES,
                starts: position,
            })?,
            (Turn::Writer, 3) => self.stores.push(position)?,
            (Turn::Writer, 4) => self.writer_ends.push(position)?,
            (Turn::Reader, 4) => self.reader_ends.push(position)?,
            _ => {}
        }
        Ok(())
    }
}

/// Reads the operations off the steps.
pub(super) fn read_steps(alloc: Global, steps: &[Turn]) -> Result<Operations, AllocError>
    ensures { IfOk result
        (λ all. IsOperationsOf (map actor steps.now)
        all.parts.items all.writer_ends.items all.reader_ends.items all.stores.items) }
{
    let mut all = Operations {
        parts: Vec::new(alloc),
        writer_ends: Vec::new(alloc),
        reader_ends: Vec::new(alloc),
        stores: Vec::new(alloc),
    };
    let mut made = Made {
        writer: 0,
        reader: 0,
    };
    for (position, turn) in steps.iter().enumerate() {
        all.take(*turn, made.by(*turn), position as u64)?;
        made.count(*turn);
    }
    Ok(all)
}
