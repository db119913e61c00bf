//! The calls on a place whose pass is the board's: nothing is asked of them.
ghost use Rattle.std.specs.Prelude.{◌≡◌, ℕ, ◌≤◌, List, map, IfOk, IfSome, IfNone, slice_get, Some, length};
ghost use Rattle.matrix_core.specs.declared.stamp.Stamp.{Stamp};
ghost use Rattle.board_live.specs.declared.record.Posted.{Posted};
ghost use Rattle.c_boards.specs.Opens.{OpensPlaces, Pairs};
ghost use Rattle.c_boards.specs.declared.seated.Seated.{Seated};

use crate::known::known;
use crate::seated::Seated;
use crate::sits::{Sits, Sitting};
use board_live::{BoardError, Posted};
use matrix_core::Stamp;
use std::alloc::{AllocError, Global};

/// A place that can be called at any time.
pub trait Posts<W: Copy>: Sized + Drop {
    // The place before and after a write that put the record under the stamp.
    ghost has_posted: { Self → Self → W → Stamp → Type 0 };

    // The place before and after a write where the tags have ended.
    ghost is_refused: { Self → Self → Type 0 };

    // The place before and after a read that gave the record with its stamp.
    ghost has_seen: { Self → Self → Posted W → Type 0 };

    // The places of a new board of so many processes, with this limit, which opened with the record.
    ghost is_made: { ℕ → ℕ → W → List Self → Type 0 };

    /// A board, as the places of its processes in rising order.
    fn open(alloc: Global, n: usize, limit: u64, words: W) -> Result<Vec<Self>, BoardError>
        ensures { OpensPlaces is_made n limit words result };

    /// Puts the record under the next stamp above all that the process sees. `None` where the tags have ended.
    fn post(&mut self, words: &W) -> Option<Stamp>
        ensures posted { IfSome result (λ s. has_posted self.old self.new words.now s) }
        ensures refused { IfNone result (is_refused self.old self.new) };

    /// Gives the greatest record that the process sees.
    fn see(&mut self) -> Posted<W>
        ensures { has_seen self.old self.new result };
}

/// The places, each with what is known of its pass.
fn seats<S: Sits>(alloc: Global, places: Vec<S>) -> Result<Vec<Seated<S>>, AllocError>
    requires { (k : ℕ) (s : S) → slice_get places.items k ≡ Some s → S.sits s }
    ensures { IfOk result (λ v. Pairs (λ p s. s.place ≡ p) places.items v.items) }
{
    let mut places = places;
    let mut seated = Vec::with_capacity(alloc, places.len())?;
    for _ in 0..places.len() {
        let Some(place) = places.pop() else {
            unreachable!();
        };
        seated.push(Seated { place })?;
    }
    seated.reverse();
    Ok(seated)
}

impl<W: Copy, S: Sitting<W>> Posts<W> for Seated<S> {
    ghost has_posted = { λ p q. S.has_posted p.place q.place };

    ghost is_refused = { λ p q. S.is_refused p.place q.place };

    ghost has_seen = { λ p q. S.has_seen p.place q.place };

    ghost is_made = { λ n limit w ss. S.is_made n limit w (map (λ s. s.place) ss) };

    fn open(alloc: Global, n: usize, limit: u64, words: W) -> Result<Vec<Seated<S>>, BoardError> {
        let places = S::open(alloc, n, limit, words)?;
        match seats(alloc, places) {
            Ok(seated) => Ok(seated),
            Err(_) => Err(BoardError::NoMemory),
        }
    }

    #[inline]
    fn post(&mut self, words: &W) -> Option<Stamp> {
        known(&self.place);
        self.place.post(words)
    }

    #[inline]
    fn see(&mut self) -> Posted<W> {
        known(&self.place);
        self.place.see()
    }
}
