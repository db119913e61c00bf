//! The steps of a four-slot register.
ghost use Rattle.std.specs.Prelude.{◌≡◌, IfOk};
ghost use Rattle.serde_json.specs.View.{view};
ghost use Rattle.read_document.specs.Refusals.{field, Gives};
ghost use Rattle.read_history.specs.Shapes.{all_of};
ghost use Rattle.read_document.specs.declared.key.Key.TheVariants.{Steps};
ghost use Rattle.read_schedule.specs.CellShapes.{as_turns, turn_named};

use four_slot_core::Turn;
use history_core::Items;
use read_document::{DocError, Key, shaped};
use serde_json::Value;
use std::alloc::{AllocError, Global};

/// The steps that stand under their key.
pub fn steps_in(alloc: Global, value: &Value) -> Result<Items<Turn>, DocError>
    ensures { Gives (λ x. x) result (field Steps as_turns (view value.now)) }
{
    let found = match value.get(Key::Steps.name()) {
        Some(steps) => turns_of(alloc, steps)?,
        None => None,
    };
    shaped(Key::Steps, found)
}

fn turns_of(alloc: Global, value: &Value) -> Result<Option<Items<Turn>>, AllocError>
    ensures { IfOk result (λ found. found ≡ as_turns (view value.now)) }
{
    match value.as_str() {
        Some(letters) => turns_in(alloc, letters.as_bytes()),
        None => Ok(None),
    }
}

/// The sides' steps, as the letters `w` and `r`.
fn turns_in(alloc: Global, letters: &[u8]) -> Result<Option<Items<Turn>>, AllocError>
    ensures { IfOk result (λ found. found ≡ all_of turn_named letters.now) }
{
    let mut turns = Vec::with_capacity(alloc, letters.len())?;
    for letter in letters {
        let Some(turn) = turn_named(*letter) else {
            return Ok(None);
        };
        turns.push(turn)?;
    }
    Ok(Some(Items::new(turns)))
}

fn turn_named(letter: u8) -> Option<Turn>
    ensures { result ≡ turn_named letter }
{
    match letter {
        b'w' => Some(Turn::Writer),
        b'r' => Some(Turn::Reader),
        _ => None,
    }
}
