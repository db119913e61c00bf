//! The ranks by which operations are sorted.

ghost use Rattle.std.specs.Prelude.{◌≡◌, ◌<◌, ℕ, length, map, IfNone, IfOk, IfSome, Some, slice_get};
ghost use Rattle.history_coherence.specs.declared.walk.Mark.TheVariants.{Placed};
ghost use Rattle.history_coherence.specs.inner.Keys.{number_at};
ghost use Rattle.history_coherence.specs.inner.Ranks.{AreRanksInOrder, AreRanksOf, IsRankIn};

use crate::edge::number_at;
use crate::walk::{Mark, mark_at};
use history_core::{Kind, Op};
use std::alloc::{AllocError, Global};

/// What the place of an operation in the order goes by.
#[derive(Clone, Copy, PartialEq, Eq, PartialOrd, Ord)]
pub struct Rank {
    /// How many records stand before its own.
    pub rank: usize,
    /// Whether it is a read or a refused write.
    pub answers: bool,
    pub place: usize,
}

/// The sorted ranks of the operations that have to stand.
pub(crate) fn rank_log(
    alloc: Global,
    log: &[Op<usize>],
    keys: &[Option<usize>],
    marks: &[Mark],
) -> Result<Vec<Rank>, AllocError>
    requires { (p x : ℕ) → number_at keys.now p ≡ Some x → (rank : ℕ) × (slice_get marks.now x ≡ Some (Placed rank)) }
    ensures are { IfOk result (λ v. AreRanksOf log.now keys.now marks.now (length log.now) v.items) }
    ensures in_order { IfOk result (λ v. AreRanksInOrder v.items) }
{
    let mut ranks = Vec::new(alloc);
    for place in 0..log.len() {
        match rank_at(log, keys, marks, place) {
            Some(rank) => ranks.push(rank)?,
            None => {}
        }
    }
    ranks.sort_unstable();
    Ok(ranks)
}

/// The rank of the operation at a place, or none where it doesn't have to stand.
fn rank_at(log: &[Op<usize>], keys: &[Option<usize>], marks: &[Mark], place: usize) -> Option<Rank>
    requires { place < length log.now }
    ensures some { IfSome result (IsRankIn log.now keys.now marks.now) }
    ensures here { IfSome result (λ r. r.place ≡ place) }
    ensures none { IfNone result ((x rank : ℕ) → number_at keys.now place ≡ Some x →
        slice_get marks.now x ≡ Some (Placed rank) → ⊥) }
{
    let key = number_at(keys, place)?;
    match mark_at(marks, key) {
        Some(Mark::Placed(rank)) => Some(Rank {
            rank,
            answers: log[place].kind != Kind::Write,
            place,
        }),
        Some(Mark::New) | Some(Mark::Open) | None => None,
    }
}

/// The places of the ranks, in their order.
pub(crate) fn places(alloc: Global, ranks: &[Rank]) -> Result<Vec<usize>, AllocError>
    ensures { IfOk result (λ v. v.items ≡ map (λ r. r.place) ranks.now) }
{
    ranks.iter().map(|r| r.place).collect(alloc)
}
