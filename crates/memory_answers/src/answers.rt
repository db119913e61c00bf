//! A function for each command. Beside the answer they give its length, and the status that a run of the program
//! would end with.
ghost use Rattle.std.specs.Prelude.{◌≡◌};
ghost use Rattle.fsr_check_answers.specs.Check.{IsCheckAnswer};
ghost use Rattle.fsr_order_answers.specs.Order.{IsOrderAnswer};
ghost use Rattle.fsr_play_answers.specs.Play.{IsPlayAnswer};
ghost use Rattle.memory_answers.specs.Handing.{AnswersInMemory};
ghost use Rattle.memory_answers.specs.Shows.{show_numbered};
ghost use Rattle.picture_answers.specs.Answers.{IsPictureAnswer};

use crate::handing::hand_out;
use fsr_check_answers::check as check_document;
use fsr_order_answers::order_bytes;
use fsr_play_answers::play as play_schedule;
use picture_answers::{PICTURE, answer as draw};
use program_runs::{FSR, Show};
use std::alloc::Global;

/// `fsr check`.
pub fn check(alloc: Global, document: &[u8], buffer: &mut [u8], size: &mut u64) -> u32
    ensures { AnswersInMemory (IsCheckAnswer document.now) buffer.old buffer.new size.new result }
{
    let reply = check_document(alloc, document);
    hand_out(alloc, &FSR, reply, buffer, size)
}

/// `fsr order`.
pub fn order(alloc: Global, show: Show, document: &[u8], buffer: &mut [u8], size: &mut u64) -> u32
    ensures { AnswersInMemory (IsOrderAnswer show document.now) buffer.old buffer.new size.new result }
{
    let reply = order_bytes(alloc, show, document);
    hand_out(alloc, &FSR, reply, buffer, size)
}

/// `fsr play`.
pub fn play(alloc: Global, document: &[u8], buffer: &mut [u8], size: &mut u64) -> u32
    ensures { AnswersInMemory (IsPlayAnswer document.now) buffer.old buffer.new size.new result }
{
    let reply = play_schedule(alloc, document);
    hand_out(alloc, &FSR, reply, buffer, size)
}

/// `picture`.
pub fn picture(alloc: Global, document: &[u8], buffer: &mut [u8], size: &mut u64) -> u32
    ensures { AnswersInMemory (IsPictureAnswer document.now) buffer.old buffer.new size.new result }
{
    let reply = draw(alloc, document);
    hand_out(alloc, &PICTURE, reply, buffer, size)
}

/// What `order` is asked for by a number: 1 is `--order`, 2 is `--small`, and any other number neither.
pub fn show_numbered(number: u32) -> Show
    ensures { result ≡ show_numbered number }
{
    Show {
        order: number == 1,
        small: number == 2,
        ..Show::plain()
    }
}
