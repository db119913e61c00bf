//! A cell in play, whose records are the numbers of its writes.
ghost use Rattle.std.specs.Prelude.{◌≡◌, ◌<◌, ◌≤◌, ◌^◌, length};
ghost use Rattle.four_slot_core.specs.declared.schedule.Turn.TheVariants.{Reader, Writer};
ghost use Rattle.cell_steps.specs.Steps.{read_number, turn_of, write_number};
ghost use Rattle.cell_steps.specs.inner.Runs.{in_play, play_of, shown_in, step_of};

use crate::shown::Shown;
use four_slot_core::{CellCore, ReadStage, Stage, Turn};

/// A cell in play, with what its events have told.
#[derive(Drop)]
pub(crate) struct InPlay {
    pub(crate) cell: CellCore<u64>,
    /// How many writes have begun.
    pub(crate) begun: u64,
    /// The numbers of the last events, and the last answer.
    pub(crate) write_event: u8,
    pub(crate) read_event: u8,
    pub(crate) answer: u64,
}

fn turn_of(letter: u8) -> Turn
    ensures { result ≡ turn_of letter }
{
    if letter == b'w' {
        Turn::Writer
    } else {
        Turn::Reader
    }
}

fn write_number(event: Stage) -> u8
    ensures { result ≡ write_number event }
{
    match event {
        Stage::W1 => 1,
        Stage::W2 => 2,
        Stage::W3 => 3,
        Stage::W4 => 4,
        Stage::W5 => 5,
    }
}

impl InPlay {
    fn write_turn(&mut self)
        requires { self.old.begun < 2 ^ 63 }
        ensures { in_play self.new ≡ step_of (in_play self.old) Writer }
    {
        let event = self.cell.write_step(self.begun + 1);
        if event == Stage::W1 {
            self.begun += 1;
        }
        self.write_event = write_number(event);
    }

    fn read_turn(&mut self)
        ensures { in_play self.new ≡ step_of (in_play self.old) Reader }
    {
        match self.cell.read_step() {
            ReadStage::R1 => self.read_event = 1,
            ReadStage::R2 => self.read_event = 2,
            ReadStage::R3 => self.read_event = 3,
            ReadStage::R4 => self.read_event = 4,
            ReadStage::R5(answer) => {
                self.read_event = 5;
                self.answer = answer;
            }
        }
    }

    fn turn(&mut self, letter: u8)
        requires { self.old.begun < 2 ^ 63 }
        ensures { in_play self.new ≡ step_of (in_play self.old) (turn_of letter) }
    {
        match turn_of(letter) {
            Turn::Writer => self.write_turn(),
            Turn::Reader => self.read_turn(),
        }
    }

    pub(crate) fn show(&self) -> Shown
        ensures { result ≡ shown_in (in_play self.now) }
    {
        let bits = self.cell.bits();
        Shown {
            latest: u8::from(bits.latest),
            reading: u8::from(bits.reading),
            slot_zero: u8::from(bits.slot[0]),
            slot_one: u8::from(bits.slot[1]),
            write_event: self.write_event,
            read_event: self.read_event,
            write_slot: self.cell.write_slot(),
            read_slot: self.cell.read_slot(),
            answer: self.answer,
        }
    }
}

/// Makes the steps of a new cell.
pub(crate) fn play(steps: &[u8]) -> InPlay
    ensures { in_play result ≡ play_of steps.now }
{
    let mut run = InPlay {
        cell: CellCore::new(0, u64::MAX),
        begun: 0,
        write_event: 5,
        read_event: 5,
        answer: 0,
    };
    for letter in steps {
        run.turn(*letter);
    }
    run
}
