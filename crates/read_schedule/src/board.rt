//! Documents of kind `board`.
ghost use Rattle.std.specs.Prelude.{IfOk};
ghost use Rattle.serde_json.specs.View.{view};
ghost use Rattle.read_schedule.specs.Board.{board_in};
ghost use Rattle.read_schedule.specs.Players.{CanBePlayed};
ghost use Rattle.read_document.specs.Refusals.{Gives};

use crate::ScheduleDocument;
use crate::plans::terms_fit;
use crate::terms::{is_titled, terms_in, terms_there, writes_key};
use history_core::Band;
use matrix_core::BoardSchedule;
use read_document::{DocError, Key, must, required};
use read_history::field;
use serde_json::Value;
use std::alloc::Global;

#[tactic(auto, unfolding(crate::specs::Board::board_in))]
pub fn board_in(alloc: Global, value: &Value) -> Result<ScheduleDocument, DocError>
    ensures document { Gives (λ d. d) result (board_in (view value.now)) }
    ensures playable { IfOk result CanBePlayed }
{
    let titled = is_titled(value);
    required(value, &[Key::Opening, Key::Noise])?;
    terms_there(value, titled)?;
    let opening: Band = field(alloc, value, Key::Opening)?;
    let noise: Band = field(alloc, value, Key::Noise)?;
    let terms = terms_in(alloc, value, titled)?;
    must(opening.fits(), DocError::Law(Key::Opening))?;
    must(
        terms_fit(terms.as_slice()),
        DocError::Law(writes_key(titled)),
    )?;
    let schedule = BoardSchedule {
        opening,
        noise,
        terms,
    };
    Ok(ScheduleDocument::Board { schedule, titled })
}
