//! An export for each command.
ghost use Rattle.fsr_check_answers.specs.Check.{IsCheckAnswer};
ghost use Rattle.fsr_order_answers.specs.Order.{IsOrderAnswer};
ghost use Rattle.fsr_play_answers.specs.Play.{IsPlayAnswer};
ghost use Rattle.memory_answers.specs.Handing.{AnswersInMemory};
ghost use Rattle.memory_answers.specs.Shows.{show_numbered};
ghost use Rattle.picture_answers.specs.Answers.{IsPictureAnswer};

use memory_answers::{check, order, picture, play, show_numbered};
use std::alloc::Global;

/// `fsr check`.
#[unsafe(no_mangle)]
pub extern "C" fn nidzaru_check(
    alloc: Global,
    document: &[u8],
    buffer: &mut [u8],
    size: &mut u64,
) -> u32
    ensures { AnswersInMemory (IsCheckAnswer document.now) buffer.old buffer.new size.new result }
{
    check(alloc, document, buffer, size)
}

/// `fsr order`, with `--order` where `show` is 1, and with `--small` where it is 2.
#[unsafe(no_mangle)]
pub extern "C" fn nidzaru_order(
    alloc: Global,
    show: u32,
    document: &[u8],
    buffer: &mut [u8],
    size: &mut u64,
) -> u32
    ensures { AnswersInMemory (IsOrderAnswer (show_numbered show) document.now) buffer.old buffer.new size.new result }
{
    order(alloc, show_numbered(show), document, buffer, size)
}

/// `fsr play`.
#[unsafe(no_mangle)]
pub extern "C" fn nidzaru_play(
    alloc: Global,
    document: &[u8],
    buffer: &mut [u8],
    size: &mut u64,
) -> u32
    ensures { AnswersInMemory (IsPlayAnswer document.now) buffer.old buffer.new size.new result }
{
    play(alloc, document, buffer, size)
}

/// `picture`.
#[unsafe(no_mangle)]
pub extern "C" fn nidzaru_picture(
    alloc: Global,
    document: &[u8],
    buffer: &mut [u8],
    size: &mut u64,
) -> u32
    ensures { AnswersInMemory (IsPictureAnswer document.now) buffer.old buffer.new size.new result }
{
    picture(alloc, document, buffer, size)
}
