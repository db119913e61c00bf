//! Whether each record is written once.

ghost use Rattle.std.specs.Prelude.{◌≡◌, IfErr, IfNone, IfOk, IfSome, OnOk};
ghost use Rattle.history_core.specs.Searches.{IsGroupFault};
ghost use Rattle.history_thinning.specs.Thinnings.{Equal};
ghost use Rattle.history_coherence.specs.Answers.{AreWrittenOnce};
ghost use Rattle.history_coherence.specs.inner.Keys.{number_at};
ghost use Rattle.history_coherence.specs.inner.Writes.{fault_at, fault_by};

use crate::edge::number_at;
use crate::key::written_records;
use crate::previous::previous_places;
use history_core::{Op, SearchError};
use std::alloc::{AllocError, Global};

/// Whether each record is written at most once, and 0, the opening, never. If not, the first write of the opening or
/// of a record that was written before. It takes n log n steps for n operations.
pub fn check_written(alloc: Global, log: &[Op<usize>]) -> Result<(), SearchError>
    ensures once { OnOk result (AreWrittenOnce log.now) }
    ensures fault { IfErr result (IsGroupFault Equal 0 log.now) }
{
    match first_fault(alloc, log) {
        Ok(None) => Ok(()),
        Ok(Some(fault)) => Err(fault),
        Err(_) => Err(SearchError::NoMemory),
    }
}

fn first_fault(alloc: Global, log: &[Op<usize>]) -> Result<Option<SearchError>, AllocError>
    ensures once { IfOk result (λ found. IfNone found (AreWrittenOnce log.now)) }
    ensures fault { IfOk result (λ found. IfSome found (IsGroupFault Equal 0 log.now)) }
{
    let records = written_records(alloc, log)?;
    let previous = previous_places(alloc, records.as_slice())?;
    for place in 0..log.len() {
        if let Some(fault) = fault_at(records.as_slice(), previous.as_slice(), place) {
            return Ok(Some(fault));
        }
    }
    Ok(None)
}

/// What is wrong with the write at a place, if one stands there.
fn fault_at(
    records: &[Option<usize>],
    previous: &[Option<usize>],
    place: usize,
) -> Option<SearchError>
    ensures { result ≡ fault_at records.now previous.now place }
{
    let record = number_at(records, place)?;
    fault_by(record, number_at(previous, place), place)
}

fn fault_by(record: usize, previous: Option<usize>, place: usize) -> Option<SearchError>
    ensures { result ≡ fault_by «record» previous place }
{
    if record == 0 {
        return Some(SearchError::WritesOpening { place });
    }
    let first = previous?;
    Some(SearchError::WritesTwice {
        first,
        second: place,
    })
}
