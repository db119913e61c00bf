//! What a place at a board does, where its pass is the board's.
ghost use Rattle.std.specs.Prelude.{◌≡◌, ℕ, List, slice_get, Some, IfOk, IfSome, IfNone, IsTrue};
ghost use Rattle.matrix_core.specs.declared.stamp.Stamp.{Stamp};
ghost use Rattle.board_live.specs.declared.record.Posted.{Posted};
ghost use Rattle.c_boards.specs.Opens.{OpensPlaces};

use board_live::{BoardError, Posted, RecordLaw};
use matrix_core::Stamp;
use std::alloc::Global;

/// Records without a law.
pub trait Free: RecordLaw {
    ghost free: { (v : Self) → IsTrue (Self.obeys v) };
}

/// A pass at something, which is or isn't its own.
pub trait Sits: Sized + Drop {
    // The pass is the board's.
    ghost sits: { Self → Type 0 };
}

/// A place at a board.
pub trait Sitting<W: Copy>: Sits {
    // The place before and after a write that put the record under the stamp.
    ghost has_posted: { Self → Self → W → Stamp → Type 0 };

    // The place before and after a write where the tags have ended.
    ghost is_refused: { Self → Self → Type 0 };

    // The place before and after a read that gave the record with its stamp.
    ghost has_seen: { Self → Self → Posted W → Type 0 };

    // The places of a new board of so many processes, with this limit, which opened with the record.
    ghost is_made: { ℕ → ℕ → W → List Self → Type 0 };

    /// A board, as the places of its processes in rising order.
    fn open(alloc: Global, n: usize, limit: u64, words: W) -> Result<Vec<Self>, BoardError>
        ensures opens { OpensPlaces is_made n limit words result }
        ensures sits { IfOk result (λ v. (k : ℕ) (s : Self) → slice_get v.items k ≡ Some s → Self.sits s) };

    /// Puts the record under the next stamp above all that the process sees. `None` where the tags have ended.
    fn post(&mut self, words: &W) -> Option<Stamp>
        requires { Self.sits self.old }
        ensures sits { Self.sits self.new }
        ensures posted { IfSome result (λ s. has_posted self.old self.new words.now s) }
        ensures refused { IfNone result (is_refused self.old self.new) };

    /// Gives the greatest record that the process sees.
    fn see(&mut self) -> Posted<W>
        requires { Self.sits self.old }
        ensures sits { Self.sits self.new }
        ensures seen { has_seen self.old self.new result };
}
