ghost use Rattle.std.specs.Prelude.{◌≡◌, MatchResult};
ghost use Rattle.read_log.specs.Logs.{fault_of, IsLogFault, IsLogSearch, IsOfLog};
ghost use Rattle.read_log.specs.Log.{CanBeSearched};

use history_core::{Band, History, Search, SearchError};
use history_search::find_order;
use program_runs::{Fault, HistoryFault};
use std::alloc::Global;

/// A lawful order of a log, or a reason why there is none. Where a record is written twice, or the
/// opening is, no order is looked for.
pub fn search_log(alloc: Global, log: &History<Band>) -> Result<Search, Fault>
    requires { CanBeSearched log.now }
    ensures { MatchResult result (IsLogSearch log.now) (IsLogFault log.now) }
{
    match find_order(alloc, log) {
        Ok(search) => Ok(search),
        Err(error) => Err(fault_of(error)),
    }
}

/// The fault of a log that isn't searched.
fn fault_of(error: SearchError) -> Fault
    requires { IsOfLog error }
    ensures { result ≡ fault_of error }
{
    match error {
        SearchError::WritesTwice { first, second } => Fault::History(HistoryFault::WritesTwice {
            first,
            second,
        }),
        SearchError::WritesOpening { place } => Fault::History(HistoryFault::WritesOpening {
            place,
        }),
        SearchError::NoMemory => Fault::NoMemory,
        SearchError::Terms | SearchError::Backwards { .. } => unreachable!(),
    }
}
