//! How many writes can stand before the first refused write.
ghost use Rattle.std.specs.Prelude.{◌≡◌, ◌<◌, ◌≤◌, ◌+◌, ◌-◌, ◌*◌, ◌⊎◌, ℕ, List, false, IfOk};
ghost use Rattle.history_core.specs.declared.history.Op.{Op};
ghost use Rattle.history_thinning.specs.Answers.{IsThinnedAnswer};
ghost use Rattle.history_thinning.specs.Thinnings.{IsThinnedLog};
ghost use Rattle.thinned_search.specs.Limits.{IsCounted, IsCountedBy, IsLawfulUnder, IsMost, is_lawful};

use crate::search::search_thinned;
use history_core::{History, Items, LogAnswer, Reason, Term, Thinned};
use std::alloc::{AllocError, Global};

/// The number that is told besides what was found, or 0.
pub fn counted(alloc: Global, thinned: &Thinned, found: &LogAnswer) -> Result<u64, AllocError>
    ensures { IfOk result (λ most. (limit : ℕ) (log : List (Op ℕ)) → IsThinnedLog limit log thinned.now →
        IsThinnedAnswer limit log found.now → IsCounted limit log found.now most) }
{
    match found {
        LogAnswer::Lawful { .. } => Ok(0),
        LogAnswer::Unlawful { reason } => counted_by(alloc, thinned, *reason),
    }
}

fn counted_by(alloc: Global, thinned: &Thinned, reason: Reason) -> Result<u64, AllocError>
    ensures { IfOk result (λ most. (limit : ℕ) (log : List (Op ℕ)) → IsThinnedLog limit log thinned.now →
        IsLawfulUnder log limit false → IsCountedBy limit log reason most) }
{
    match reason {
        Reason::Limit { .. } => most(alloc, thinned, thinned.limit()),
        Reason::Unwritten { .. }
        | Reason::Early { .. }
        | Reason::Stale { .. }
        | Reason::Crossed { .. } => Ok(0),
    }
}

/// The greatest limit under which an order is lawful, where none is under this one. It
/// searches under some limits between.
fn most(alloc: Global, thinned: &Thinned, limit: u64) -> Result<u64, AllocError>
    ensures { IfOk result (λ most. (own : ℕ) (log : List (Op ℕ)) → IsThinnedLog own log thinned.now →
        IsLawfulUnder log limit false → 0 < limit → IsMost log most) }
{
    let mut low = 0;
    let mut high = limit;
    'between: while high - low > 1 {
        let middle = middle(low, high);
        if is_lawful_under(alloc, thinned, middle)? {
            low = middle;
        } else {
            high = middle;
        }
    }
    Ok(low)
}

/// A limit between two. The first ones are small, as few writes stand before a refused write that comes too early. With
/// each one the span is halved, or its lower end rises by half of itself, so that there are few.
fn middle(low: u64, high: u64) -> u64
    requires { 1 < high - low }
    ensures above { low < result }
    ensures below { result < high }
    ensures few { (high - low ≤ 2 * (result - low) + 1) ⊎ (low < 2 * (result - low)) }
{
    low + (high - low).min(low + 2) / 2
}

/// Whether an order of the whole log is lawful under another limit.
fn is_lawful_under(alloc: Global, thinned: &Thinned, limit: u64) -> Result<bool, AllocError>
    ensures { IfOk result (λ is. (own : ℕ) (log : List (Op ℕ)) → IsThinnedLog own log thinned.now →
        IsLawfulUnder log limit is) }
{
    let other = with_limit(alloc, thinned, limit)?;
    match search_thinned(alloc, &other) {
        Ok(found) => Ok(is_lawful(&found)),
        Err(_) => Err(AllocError),
    }
}

fn is_lawful(found: &LogAnswer) -> bool
    ensures { result ≡ is_lawful found.now }
{
    match found {
        LogAnswer::Lawful { .. } => true,
        LogAnswer::Unlawful { .. } => false,
    }
}

/// The same operations under another limit.
fn with_limit(alloc: Global, thinned: &Thinned, limit: u64) -> Result<Thinned, AllocError>
    ensures { IfOk result (λ other. (own : ℕ) (log : List (Op ℕ)) → IsThinnedLog own log thinned.now →
        IsThinnedLog limit log other) }
{
    let terms = Vec::from_slice(alloc, &[Term { first: 0, limit }])?;
    let ops = Vec::from_slice(alloc, thinned.history.ops.as_slice())?;
    let places = Vec::from_slice(alloc, thinned.places.as_slice())?;
    Ok(Thinned {
        history: History {
            opening: thinned.history.opening,
            terms: Items::new(terms),
            ops: Items::new(ops),
        },
        places: Items::new(places),
    })
}
