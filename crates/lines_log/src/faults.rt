//! How faults are told.
ghost use Rattle.std.specs.Prelude.{◌≡◌, ◌⊎◌, IfOk};
ghost use Rattle.program_runs.specs.declared.fault.Fault.TheVariants.{NoMemory};
ghost use Rattle.lines_log.specs.Faults.{refused_at, told_of};

use history_core::SearchError;
use program_runs::{Fault, LinesFault};
use read_document::{DocError, Key};
use std::alloc::AllocError;
use text_lines::line_of;

/// How a refusal of this line is told.
pub fn refused_at(line: usize, why: DocError) -> Fault
    ensures { result ≡ refused_at line why }
{
    match why {
        DocError::Law(Key::End) => Fault::Lines(LinesFault::Backwards { line }),
        DocError::NoMemory => Fault::NoMemory,
        _ => Fault::Lines(LinesFault::Refused { line, why }),
    }
}

/// How it is told that a log can't be searched. Its one term is never in the way.
pub(crate) fn told_of(error: SearchError) -> Fault
    ensures { (result ≡ NoMemory) ⊎ (result ≡ told_of error) }
{
    match told(error) {
        Ok(fault) => fault,
        Err(_) => Fault::NoMemory,
    }
}

fn told(error: SearchError) -> Result<Fault, AllocError>
    ensures { IfOk result (λ fault. fault ≡ told_of error) }
{
    match error {
        SearchError::NoMemory | SearchError::Terms => Ok(Fault::NoMemory),
        SearchError::Backwards { place } => {
            let line = line_of(place)?;
            Ok(Fault::Lines(LinesFault::Backwards { line }))
        }
        SearchError::WritesOpening { place } => {
            let line = line_of(place)?;
            Ok(Fault::Lines(LinesFault::WritesOpening { line }))
        }
        SearchError::WritesTwice { first, second } => {
            let first = line_of(first)?;
            let second = line_of(second)?;
            Ok(Fault::Lines(LinesFault::WritesTwice { first, second }))
        }
    }
}
