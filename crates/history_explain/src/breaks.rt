//! The first rule of a lawful order that an order breaks, with what breaks it.

mod listing;
mod precedence;
mod reading;
mod refusal;

ghost use Rattle.std.specs.Prelude.{IfSome, IsSomeAnd, IsTrue};
ghost use Rattle.history_explain.specs.Breaks.{IsFirstBreak, IsListingBreak, verdict_of};
ghost use Rattle.history_core.specs.Orders.{IsListing, IsVerdict};

use history_check::check_order;
use history_core::{History, Op, Term, Verdict};
use listing::{miscounted, no_place};
use precedence::overtaken;
use reading::reading_break;
use refusal::{Early, refused_early};

/// What breaks a rule. Entries are those of the order and places those of the operations, both counted from 0.
#[derive(Clone, Copy, Debug, PartialEq, Eq)]
pub enum Break {
    /// This entry is no place.
    NoPlace { entry: usize },
    /// The operation at this place stands this often, and may not.
    Times { place: usize, times: usize },
    /// The operation of `entry` precedes that of `earlier`, and stands after it.
    Precedence { earlier: usize, entry: usize },
    /// The operation of this entry has no item.
    NoItem { entry: usize },
    /// The read or refused write of this entry has another record than the write of the entry `write`, the last before
    /// it; or than the opening, where no write stands before it.
    Reading { entry: usize, write: Option<usize> },
    /// The write of this entry was refused with so many writes of its term before it, which are fewer than the limit.
    Limit { entry: usize, writes: u64 },
}

/// The first rule that the order breaks, with the first that breaks it; none exactly where `check_order`
/// answers `Lawful`. It takes no memory, and no more passes over the order than `check_order`, besides
/// those of `check_order` itself.
pub fn first_break<R: Copy + Eq>(h: &History<R>, order: &[usize]) -> Option<Break>
    ensures rule { IsVerdict (λ x y. IsTrue (R.eq x y)) h.now.opening h.now.terms h.now.ops order.now
        (verdict_of result) }
    ensures first { IfSome result
        (IsFirstBreak (λ x y. IsTrue (R.eq x y)) h.now.opening h.now.terms h.now.ops order.now) }
{
    let verdict = check_order(h, order);
    breaking(
        verdict,
        h.opening,
        h.terms.as_slice(),
        h.ops.as_slice(),
        order,
    )
}

/// What breaks the rule that this verdict names.
fn breaking<R: Copy + Eq>(
    verdict: Verdict,
    opening: R,
    terms: &[Term],
    ops: &[Op<R>],
    order: &[usize],
) -> Option<Break>
    requires { IsVerdict (λ x y. IsTrue (R.eq x y)) opening terms.now ops.now order.now verdict }
    ensures rule { IsVerdict (λ x y. IsTrue (R.eq x y)) opening terms.now ops.now order.now (verdict_of result) }
    ensures first { IfSome result (IsFirstBreak (λ x y. IsTrue (R.eq x y)) opening terms.now ops.now order.now) }
{
    match verdict {
        Verdict::Lawful => None,
        Verdict::Listing => listing_break(ops, order),
        Verdict::Precedence => {
            let (earlier, entry) = overtaken(ops, order)?;
            Some(Break::Precedence { earlier, entry })
        }
        Verdict::Reading => reading_break(opening, ops, order),
        Verdict::Limit => {
            let Early { entry, writes } = refused_early(terms, ops, order)?;
            Some(Break::Limit { entry, writes })
        }
    }
}

/// The entry that is no place, or else the operation that stands too often or too seldom.
fn listing_break<R>(ops: &[Op<R>], order: &[usize]) -> Option<Break>
    requires { ¬ IsListing ops.now order.now }
    ensures { IsSomeAnd result (IsListingBreak ops.now order.now) }
{
    if let Some(entry) = no_place(ops, order) {
        return Some(Break::NoPlace { entry });
    }
    let (place, times) = miscounted(ops, order)?;
    Some(Break::Times { place, times })
}
