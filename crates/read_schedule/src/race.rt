//! Documents of kind `race`.
ghost use Rattle.std.specs.Prelude.{IfOk};
ghost use Rattle.serde_json.specs.View.{view};
ghost use Rattle.read_schedule.specs.Players.{CanRace};
ghost use Rattle.read_schedule.specs.Race.{race_in};
ghost use Rattle.read_document.specs.Refusals.{Gives};

use crate::RaceDocument;
use crate::plans::{plans_fit, plans_in_range};
use history_core::{Band, Items, Wish};
use history_fields::limit_in_range;
use read_document::{DocError, Key, must, required};
use read_history::{field, list_field};
use serde_json::Value;
use std::alloc::Global;

#[tactic(auto, unfolding(crate::specs::Race::race_in))]
pub fn race_in(alloc: Global, value: &Value) -> Result<RaceDocument, DocError>
    ensures document { Gives (λ d. d) result (race_in (view value.now)) }
    ensures playable { IfOk result (λ d. CanRace d.opening d.limit d.scripts) }
{
    required(value, &[Key::Opening, Key::Limit, Key::Scripts])?;
    let opening: Band = field(alloc, value, Key::Opening)?;
    let limit: u64 = field(alloc, value, Key::Limit)?;
    let scripts: Vec<Items<Wish<Band>>> = list_field(alloc, value, Key::Scripts)?;
    must(limit_in_range(limit), DocError::Range(Key::Limit))?;
    must(
        plans_in_range(scripts.as_slice()),
        DocError::Range(Key::Scripts),
    )?;
    must(opening.fits(), DocError::Law(Key::Opening))?;
    must(plans_fit(scripts.as_slice()), DocError::Law(Key::Scripts))?;
    Ok(RaceDocument {
        opening,
        limit,
        scripts: Items::new(scripts),
    })
}
