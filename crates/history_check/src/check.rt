//! The check of an order: the four rules of a lawful order, one after the other.

mod listing;
mod precedence;
mod reading;
mod refusal;

ghost use Rattle.std.specs.Prelude.{IsTrue};
ghost use Rattle.history_core.specs.Orders.{IsVerdict};

use history_core::{History, Op, Term, Verdict};
use listing::{lists_places, stands};
use precedence::keeps_precedence;
use reading::reads_latest;
use refusal::refuses_lawfully;

/// The first rule of a lawful order that this order breaks, or `Lawful`. It takes no memory. It goes over the order
/// once for precedence, once for reading, for the limit once for each term, and for listing once, and then once for
/// each block of 4,096 operations.
pub fn check_order<R: Copy + Eq>(h: &History<R>, order: &[usize]) -> Verdict
    ensures { IsVerdict (λ x y. IsTrue (R.eq x y)) h.now.opening h.now.terms h.now.ops order.now result }
{
    verdict(h.opening, h.terms.as_slice(), h.ops.as_slice(), order)
}

fn verdict<R: Copy + Eq>(opening: R, terms: &[Term], ops: &[Op<R>], order: &[usize]) -> Verdict
    ensures { IsVerdict (λ x y. IsTrue (R.eq x y)) opening terms.now ops.now order.now result }
{
    if !lists_places(ops, order) || !stands(ops, order) {
        return Verdict::Listing;
    }
    if !keeps_precedence(ops, order) {
        return Verdict::Precedence;
    }
    if !reads_latest(opening, ops, order) {
        return Verdict::Reading;
    }
    if !refuses_lawfully(terms, ops, order) {
        return Verdict::Limit;
    }
    Verdict::Lawful
}
