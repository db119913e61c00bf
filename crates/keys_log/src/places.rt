//! From the lines of a key to those of the whole text.
ghost use Rattle.std.specs.Prelude.{◌≡◌, ◌⊎◌, IfOk};
ghost use Rattle.program_runs.specs.declared.fault.Fault.TheVariants.{NoMemory};
ghost use Rattle.keys_log.specs.KeyFaults.{in_whole, lines_in_whole, whole_line};

use program_runs::{Fault, LinesFault};
use std::alloc::AllocError;
use text_lines::line_of;

/// A fault of a key's log, whose operations are at these places, by the lines of the whole text. Its one term is never
/// in the way.
pub(crate) fn in_whole(places: &[usize], own: Fault) -> Fault
    ensures { (result ≡ NoMemory) ⊎ (result ≡ in_whole places.now own) }
{
    match own {
        Fault::Lines(why) => match lines_in_whole(places, why) {
            Ok(why) => Fault::Lines(why),
            Err(_) => Fault::NoMemory,
        },
        _ => own,
    }
}

fn lines_in_whole(places: &[usize], why: LinesFault) -> Result<LinesFault, AllocError>
    ensures { IfOk result (λ fault. fault ≡ lines_in_whole places.now why) }
{
    Ok(match why {
        LinesFault::Headless { why } => LinesFault::Headless { why },
        LinesFault::Refused { line, why } => LinesFault::Refused {
            line: whole_line(places, line)?,
            why,
        },
        LinesFault::Backwards { line } => LinesFault::Backwards {
            line: whole_line(places, line)?,
        },
        LinesFault::Overlaps { who, first, second } => LinesFault::Overlaps {
            who,
            first: whole_line(places, first)?,
            second: whole_line(places, second)?,
        },
        LinesFault::WritesTwice { first, second } => LinesFault::WritesTwice {
            first: whole_line(places, first)?,
            second: whole_line(places, second)?,
        },
        LinesFault::WritesOpening { line } => LinesFault::WritesOpening {
            line: whole_line(places, line)?,
        },
    })
}

fn whole_line(places: &[usize], line: usize) -> Result<usize, AllocError>
    ensures { IfOk result (λ whole. whole ≡ whole_line places.now line) }
{
    let place = places.get(line.saturating_sub(2)).copied().unwrap_or(0);
    line_of(place)
}
