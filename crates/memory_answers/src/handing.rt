//! How a reply is handed out.
ghost use Rattle.std.specs.Prelude.{◌≡◌, length};
ghost use Rattle.memory_answers.specs.Handing.{IsHandedOut, put_over};

use program_runs::{Answer, Fault, Program, tell_fault};
use program_streams::Over;
use std::alloc::Global;

/// Hands out the text of an answer, or the line of a fault, and gives the status that a run would end with.
pub(crate) fn hand_out(
    alloc: Global,
    program: &Program,
    reply: Result<Answer, Fault>,
    buffer: &mut [u8],
    size: &mut u64,
) -> u32
    ensures { IsHandedOut reply buffer.old buffer.new size.new result }
{
    match reply {
        Ok(answer) => {
            put(answer.text.as_slice(), buffer, size);
            u32::from(answer.status)
        }
        Err(fault) => {
            let mut faults = Over::new(Vec::new(alloc));
            let status = tell_fault(alloc, program, &mut faults, &fault);
            put(faults.stream().as_slice(), buffer, size);
            u32::from(status)
        }
    }
}

/// Puts a text over the front of a buffer, as far as both reach, and its length into `size`.
fn put(text: &[u8], buffer: &mut [u8], size: &mut u64)
    ensures put { buffer.new ≡ put_over text.now buffer.old }
    ensures counted { size.new ≡ length text.now }
{
    let reach = text.len().min(buffer.len());
    buffer[..reach].copy_from_slice(&text[..reach]);
    *size = text.len() as u64;
}
