//! Groups that cross: two operations that stand against precedence in the sorted ranks show them.

ghost use Rattle.std.specs.Prelude.{◌≡◌, ◌<◌, ◌↔◌, ℕ, length, IfNone, IfSome, IsTrue, None, Some, slice_get};
ghost use Rattle.history_search.specs.inner.Groups.{spans_in};
ghost use Rattle.history_search.specs.inner.Found.{begin_place, crossing_of, end_place, place_or};
ghost use Rattle.history_search.specs.inner.Ranks.{IsTurned, later_rank, NoneTurned, ranks_in};

use crate::rank::{Rank, rank_at};
use crate::span::{Marks, Moment, Span};
use history_core::{Op, Reason};

/// Two ranks of which the second stands behind the first, and its operation precedes that of the first.
#[derive(Clone, Copy)]
pub struct Turn {
    pub earlier: Rank,
    pub later: Rank,
}

/// A turn among the places that are sorted by rank.
pub(crate) fn first_turn<R>(
    ops: &[Op<R>],
    groups: &[Option<usize>],
    spans: &[Marks],
    places: &[usize],
) -> Option<Turn>
    ensures some { let ranks = ranks_in ops.now groups.now (spans_in ops.now spans.now) None places.now in
        IfSome result (λ t. (i : ℕ) × (j : ℕ) × (i < j) × (slice_get ranks i ≡ Some t.earlier)
        × (slice_get ranks j ≡ Some t.later) × IsTurned ops.now t.earlier t.later) }
    ensures none { IfNone result (NoneTurned ops.now
        (ranks_in ops.now groups.now (spans_in ops.now spans.now) None places.now) (length places.now)) }
{
    if places.len() == 0 {
        return None;
    }
    let mut last = rank_at(ops, groups, spans, None, places[0]);
    for i in 1..places.len() {
        let rank = rank_at(ops, groups, spans, None, places[i]);
        if is_turned(ops, &last, &rank) {
            return Some(Turn {
                earlier: last,
                later: rank,
            });
        }
        last = later(last, rank);
    }
    None
}

/// Whether the operation of y precedes that of x.
fn is_turned<R>(ops: &[Op<R>], x: &Rank, y: &Rank) -> bool
    ensures { IsTrue result ↔ IsTurned ops.now x.now y.now }
{
    match ops.get(y.place) {
        Some(op) => match op.ends {
            Some(end) => end < x.starts,
            None => false,
        },
        None => false,
    }
}

/// The one that begins later.
fn later(x: Rank, y: Rank) -> Rank
    ensures { result ≡ later_rank x y }
{
    if x.starts < y.starts { y } else { x }
}

/// What crosses: the earliest end of one group precedes the latest beginning of the other, and the other way round.
pub(crate) fn crossing(one: Option<Span>, other: Option<Span>) -> Reason
    ensures { result ≡ crossing_of one other }
{
    Reason::Crossed {
        a: end_place(one),
        b: begin_place(other),
        c: end_place(other),
        d: begin_place(one),
    }
}

/// The place of a group's earliest end.
fn end_place(span: Option<Span>) -> usize
    ensures { result ≡ end_place span }
{
    match span {
        None => 0,
        Some(span) => place_or(span.ends),
    }
}

/// The place of a group's latest beginning.
fn begin_place(span: Option<Span>) -> usize
    ensures { result ≡ begin_place span }
{
    match span {
        None => 0,
        Some(span) => place_or(span.begins),
    }
}

fn place_or(moment: Option<Moment>) -> usize
    ensures { result ≡ place_or moment }
{
    match moment {
        None => 0,
        Some(m) => m.place,
    }
}
