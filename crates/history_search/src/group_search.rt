//! The search over groups: ranks, then crossings, and where the limit wants it the late groups last.

ghost use Rattle.std.specs.Prelude.{◌≡◌, ◌<◌, ◌≤◌, ℕ, length, IfNone, IfOk, IfSome, None, Some, slice_get};
ghost use Rattle.history_search.specs.inner.Found.{AreStraight, HasEnough, HasTooFew, IsFound};
ghost use Rattle.history_search.specs.inner.Found.{IsGroupSearch, refused_in};
ghost use Rattle.history_search.specs.inner.Groups.{spans_in};
ghost use Rattle.history_search.specs.inner.Limits.{kind_or};
ghost use Rattle.history_search.specs.inner.Ranks.{ranks_in};

use crate::cut::late_end;
use crate::group::first_ungrouped;
use crate::rank::{rank_ops, span_at};
use crate::span::{EarlyRead, Marks, Span, StaleRead, first_early, first_stale, span_groups};
use crate::turn::{Turn, crossing, first_turn};
use history_core::{Items, Kind, Op, Reason, Search};
use std::alloc::{AllocError, Global};

/// The answer to operations in groups.
pub(crate) fn search_groups<R>(
    alloc: Global,
    limit: u64,
    ops: &[Op<R>],
    groups: &[Option<usize>],
) -> Result<Search, AllocError>
    requires long { length groups.now ≡ length ops.now }
    requires within { (p g : ℕ) → slice_get groups.now p ≡ Some (Some g) → g ≤ length ops.now }
    ensures { IfOk result (IsFound ops.now groups.now limit) }
{
    if let Some(read) = first_ungrouped(ops, groups) {
        return Ok(Search::Unlawful(Reason::Unwritten { read }));
    }
    let spans = span_groups(alloc, ops, groups)?;
    if let Some(EarlyRead { read, write }) = first_early(ops, spans.as_slice()) {
        return Ok(Search::Unlawful(Reason::Early { read, write }));
    }
    if let Some(StaleRead { before, read }) = first_stale(ops, spans.as_slice()) {
        return Ok(Search::Unlawful(Reason::Stale { before, read }));
    }
    order_groups(alloc, limit, ops, groups, spans.as_slice())
}

/// The answer to groups of which each has its write before its reads, the opening's before all others.
fn order_groups<R>(
    alloc: Global,
    limit: u64,
    ops: &[Op<R>],
    groups: &[Option<usize>],
    spans: &[Marks],
) -> Result<Search, AllocError>
    requires { length groups.now ≡ length ops.now }
    ensures { IfOk result (IsGroupSearch ops.now groups.now (spans_in ops.now spans.now) limit) }
{
    let order = rank_ops(alloc, ops, groups, spans, None)?;
    if let Some(Turn { earlier, later }) = first_turn(ops, groups, spans, order.as_slice()) {
        let one = span_at(ops, spans, earlier.group);
        let other = span_at(ops, spans, later.group);
        return Ok(Search::Unlawful(crossing(one, other)));
    }
    match first_too_few(ops, order.as_slice(), limit) {
        None => Ok(Search::Order(Items::new(order))),
        Some(_) => order_late(alloc, limit, ops, groups, spans, order.as_slice()),
    }
}

/// The same where the limit wants the late groups last, and writes that nobody read before them.
fn order_late<R>(
    alloc: Global,
    limit: u64,
    ops: &[Op<R>],
    groups: &[Option<usize>],
    spans: &[Marks],
    straight: &[usize],
) -> Result<Search, AllocError>
    requires long { length groups.now ≡ length ops.now }
    requires straight { AreStraight ops.now groups.now (spans_in ops.now spans.now)
        (ranks_in ops.now groups.now (spans_in ops.now spans.now) None straight.now) }
    requires limited { 0 < limit }
    ensures { IfOk result (IsGroupSearch ops.now groups.now (spans_in ops.now spans.now) limit) }
{
    if let Some(refused) = refused_in(span_at(ops, spans, 0)) {
        return Ok(Search::Unlawful(Reason::Limit { refused }));
    }
    let late = late_end(ops, groups, spans, straight);
    let order = rank_ops(alloc, ops, groups, spans, Some(late))?;
    match first_too_few(ops, order.as_slice(), limit) {
        None => Ok(Search::Order(Items::new(order))),
        Some(refused) => Ok(Search::Unlawful(Reason::Limit { refused })),
    }
}

/// A refused write of a group.
fn refused_in(span: Option<Span>) -> Option<usize>
    ensures { result ≡ refused_in span }
{
    match span {
        Some(span) => span.refused,
        None => None,
    }
}

/// The first refused write of an order, where it has fewer writes before it than the limit.
fn first_too_few<R>(ops: &[Op<R>], order: &[usize], limit: u64) -> Option<usize>
    ensures enough { IfNone result (HasEnough ops.now order.now limit) }
    ensures few { IfSome result (HasTooFew ops.now order.now limit) }
{
    let mut writes: u64 = 0;
    for i in 0..order.len() {
        let place = order[i];
        match kind_at(ops, place) {
            Kind::Refused => return if writes < limit { Some(place) } else { None },
            Kind::Write => writes += 1,
            Kind::Read => {}
        }
    }
    None
}

/// The kind of the operation at a place. Where there is none it is a read, which is neither refused nor counted.
fn kind_at<R>(ops: &[Op<R>], place: usize) -> Kind
    ensures { result ≡ kind_or (slice_get ops.now place) }
{
    match ops.get(place) {
        Some(op) => op.kind,
        None => Kind::Read,
    }
}
