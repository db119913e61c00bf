//! A cell in play: it makes the events of a schedule's steps, over numbered records.

ghost use Rattle.std.specs.Prelude.{◌≡◌, IfOk, OnOk};
ghost use Rattle.four_slot_play.specs.inner.Runs.{after_reader, after_writer, numbered, numbered_run, shown, step_of};

use four_slot_core::{CellCore, ReadStage, Stage, Turn};
use std::alloc::{AllocError, Global};

/// A record with the number of its write, from 1 on; the opening has the number 0.
#[derive(Clone, Copy)]
pub(super) struct Numbered<R> {
    pub(super) number: usize,
    pub(super) item: R,
}

/// A cell in play, with what its events have shown so far.
#[derive(Drop)]
pub(super) struct InPlay<R> {
    pub(super) cell: CellCore<Numbered<R>>,
    pub(super) write_slots: Vec<u8>,
    pub(super) read_slots: Vec<u8>,
    pub(super) answers: Vec<Numbered<R>>,
}

impl<R: Copy> InPlay<R> {
    fn write_turn(&mut self, item: Numbered<R>) -> Result<(), AllocError>
        ensures { OnOk result (shown self.new ≡ after_writer item (shown self.old)) }
    {
        if self.cell.write_step(item) == Stage::W1 {
            self.write_slots.push(self.cell.write_slot())?;
        }
        Ok(())
    }

    fn read_turn(&mut self) -> Result<(), AllocError>
        ensures { OnOk result (shown self.new ≡ after_reader (shown self.old)) }
    {
        match self.cell.read_step() {
            ReadStage::R3 => self.read_slots.push(self.cell.read_slot())?,
            ReadStage::R5(answer) => self.answers.push(answer)?,
            ReadStage::R1 | ReadStage::R2 | ReadStage::R4 => {}
        }
        Ok(())
    }
}

/// Makes the events of the steps, one after the other.
pub(super) fn play<R: Copy>(
    alloc: Global,
    opening: R,
    noise: R,
    steps: &[Turn],
    writes: &[R],
) -> Result<InPlay<R>, AllocError>
    ensures { IfOk result (λ r. shown r ≡ numbered_run opening noise writes.now steps.now) }
{
    let mut run = InPlay {
        cell: CellCore::new(
            Numbered {
                number: 0,
                item: opening,
            },
            Numbered {
                number: 0,
                item: noise,
            },
        ),
        write_slots: Vec::new(alloc),
        read_slots: Vec::new(alloc),
        answers: Vec::new(alloc),
    };
    for turn in steps {
        take_turn(&mut run, *turn, opening, writes)?;
    }
    Ok(run)
}

fn take_turn<R: Copy>(
    run: &mut InPlay<R>,
    turn: Turn,
    opening: R,
    writes: &[R],
) -> Result<(), AllocError>
    ensures { OnOk result (shown run.new ≡ step_of (numbered opening writes.now) (shown run.old) turn) }
{
    match turn {
        Turn::Writer => {
            let number = run.write_slots.len();
            let item = writes.get(number).copied().unwrap_or(opening);
            run.write_turn(Numbered {
                number: number + 1,
                item,
            })
        }
        Turn::Reader => run.read_turn(),
    }
}
