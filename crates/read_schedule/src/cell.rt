//! Documents of kind `cell`.
ghost use Rattle.std.specs.Prelude.{◌≡◌, ◌+◌};
ghost use Rattle.std.specs.List.{list_all};
ghost use Rattle.history_core.specs.Band.{fits};
ghost use Rattle.serde_json.specs.View.{view};
ghost use Rattle.read_schedule.specs.Cell.{allowed, cell_in};
ghost use Rattle.read_document.specs.Ranges.{count_in_range};
ghost use Rattle.read_document.specs.Refusals.{Gives};

use crate::ranges::steps_in_range;
use crate::turns::steps_in;
use four_slot_core::CellSchedule;
use history_core::{Band, Items};
use read_document::{DocError, Key, MAX_OPERATIONS, count_in_range, must, required};
use read_history::{field, list_field};
use serde_json::Value;
use std::alloc::Global;

/// The schedule that a document of kind `cell` stands for.
#[tactic(auto, unfolding(crate::specs::Cell::cell_in))]
pub fn cell_in(alloc: Global, value: &Value) -> Result<CellSchedule<Band>, DocError>
    ensures { Gives (λ schedule. schedule) result (cell_in (view value.now)) }
{
    required(
        value,
        &[
            Key::Opening,
            Key::Noise,
            Key::Writes,
            Key::Reads,
            Key::Steps,
        ],
    )?;
    let opening: Band = field(alloc, value, Key::Opening)?;
    let noise: Band = field(alloc, value, Key::Noise)?;
    let writes: Vec<Band> = list_field(alloc, value, Key::Writes)?;
    let reads: u64 = field(alloc, value, Key::Reads)?;
    let steps = steps_in(alloc, value)?;
    let count = steps.as_slice().len();
    allowed(opening, writes.as_slice(), reads, count)?;
    Ok(CellSchedule {
        opening,
        noise,
        steps,
        writes: Items::new(writes),
        reads,
    })
}

/// The ranges, and then the laws.
#[tactic(auto, unfolding(crate::specs::Cell::allowed))]
fn allowed(opening: Band, writes: &[Band], reads: u64, steps: usize) -> Result<(), DocError>
    ensures { result ≡ allowed opening writes.now reads steps }
{
    must(count_in_range(writes.len()), DocError::Range(Key::Writes))?;
    must(has_room(writes.len(), reads), DocError::Range(Key::Reads))?;
    must(steps_in_range(steps), DocError::Range(Key::Steps))?;
    must(opening.fits(), DocError::Law(Key::Opening))?;
    must(all_fit(writes), DocError::Law(Key::Writes))
}

/// Whether there may be so many reads beside the writes.
fn has_room(writes: usize, reads: u64) -> bool
    ensures { result ≡ count_in_range (writes + reads) }
{
    writes <= MAX_OPERATIONS && reads <= (MAX_OPERATIONS - writes) as u64
}

fn all_fit(records: &[Band]) -> bool
    ensures { result ≡ list_all fits records.now }
{
    records.iter().all(|record| record.fits())
}
