//! The reader of the operations of one key.
ghost use Rattle.std.specs.Prelude.{◌≡◌, ◌<◌, ◌+◌, ◌^◌, ◌++◌, ◌∷◌, [], ℕ, List, Option, Some, Ok, length, true};
ghost use Rattle.std.specs.Prelude.{IfErr, IfOk, OnOk, option_map, slice_get, slice_set, string_bytes};
ghost use Rattle.keys_log.specs.inner.KeyReadings.{IsOfKey};
ghost use Rattle.lines_log.specs.inner.Readings.{HasReadLines};
ghost use Rattle.read_line.specs.Lines.{Head, IsAllowed, op_seen};

use crate::places::in_whole;
use lines_log::Reader;
use program_runs::Fault;
use read_line::LineOp;

/// What was read of the log of one key.
#[derive(Drop)]
pub(crate) struct KeyReader {
    pub reader: Reader,
    /// The place in the whole log of each operation that was read.
    pub places: Vec<usize>,
}

impl KeyReader {
    ghost use Rattle.keys_log.specs.inner.KeyReadings.{IsKeyRead, IsKeyFault};

    /// Enters the operation of the next line, which is at this place of the whole log.
    pub fn enter(&mut self, op: LineOp, place: usize) -> Result<(), Fault>
        requires allowed { IsAllowed op }
        requires room { self.old.reader.count + 2 < 2 ^ 64 }
        requires known { HasReadLines self.old.reader }
        ensures entered { OnOk result ((head : Head) (lines : List (List ℕ)) (key : Option (List ℕ)) (line : List ℕ) →
            IsKeyRead head lines key self.old → IsOfKey head lines key line (op_seen op) → place ≡ length lines →
            IsKeyRead head (lines ++ line ∷ []) key self.new) }
        ensures fault { IfErr result (λ fault. (head : Head) (lines : List (List ℕ)) (key : Option (List ℕ))
            (line : List ℕ) → IsKeyRead head lines key self.old → IsOfKey head lines key line (op_seen op) →
            place ≡ length lines → IsKeyFault head lines key line fault) }
    {
        match self.places.push(place) {
            Ok(()) => match self.reader.enter(op) {
                Ok(()) => Ok(()),
                Err(own) => Err(in_whole(self.places.as_slice(), own)),
            },
            Err(_) => Err(Fault::NoMemory),
        }
    }
}
