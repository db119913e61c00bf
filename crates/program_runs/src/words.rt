ghost use Rattle.std.specs.Prelude.{◌≡◌, ◌≤◌, ◌+◌, ◌⊎◌, IfErr};
ghost use Rattle.program_streams.specs.Stream.{HasRoom};

use program_streams::{Exit, Sink, tell};
use std::alloc::AllocGlobal;
use std::env::{Env, args};
use std::io::ErrorKind;

/// The words that the program was run with, of which the first is its name. Where they aren't UTF-8, or memory runs
/// out, it tells so and gives the status that the run ends with.
pub fn words_of<R: Env + AllocGlobal, E: Sink>(
    rt: &R,
    no_memory: &str,
    faults: &mut E,
) -> Result<Vec<String>, u8>
    requires { HasRoom (E.failed faults.old) }
    ensures status { IfErr result (λ status. (status ≡ 2) ⊎ (status ≡ 4)) }
    ensures faults { E.failed faults.new ≤ E.failed faults.old + 1 }
{
    match args(rt) {
        Ok(all) => match all.collect(rt.alloc()) {
            Ok(words) => Ok(words),
            Err(_) => {
                tell(faults, no_memory);
                Err(Exit::NoMemory.status())
            }
        },
        Err(e) if e.kind() == ErrorKind::OutOfMemory => {
            tell(faults, no_memory);
            Err(Exit::NoMemory.status())
        }
        Err(_) => {
            tell(faults, "fsr: words are not UTF-8\n");
            Err(Exit::NoCommand.status())
        }
    }
}
