//! The ranks by which operations are sorted.

ghost use Rattle.std.specs.Prelude.{◌≡◌, length, IfOk, Some, slice_get};
ghost use Rattle.history_search.specs.inner.Groups.{spans_in};
ghost use Rattle.history_search.specs.inner.Found.{AreSorted};
ghost use Rattle.history_search.specs.inner.Ranks.{asks_in, begin_in, end_in, first_in, group_or, is_above, is_late};
ghost use Rattle.history_search.specs.inner.Ranks.{last_in, late_in, rank_in, ranks_in, stands_in, stands_with};

use crate::span::{Marks, Span, span_in};
use history_core::{Kind, Op};
use std::alloc::{AllocError, Global};

/// What the place of an operation in the order goes by. Groups stand by `late`, `first`, `last` and their number;
/// within a group the write comes first, and then the others by beginning.
#[derive(Clone, Copy, PartialEq, Eq, PartialOrd, Ord)]
pub struct Rank {
    /// Whether the group has to stand behind a refused write.
    pub late: bool,
    /// The earlier of the group's earliest end and latest beginning.
    pub first: u64,
    /// The group's latest beginning.
    pub last: u64,
    pub group: usize,
    /// Whether the operation is a read or a refused write.
    pub answers: bool,
    pub starts: u64,
    pub place: usize,
}

/// The places of the operations of the groups that stand, sorted by rank.
pub(crate) fn rank_ops<R>(
    alloc: Global,
    ops: &[Op<R>],
    groups: &[Option<usize>],
    spans: &[Marks],
    cut: Option<Option<u64>>,
) -> Result<Vec<usize>, AllocError>
    requires { length groups.now ≡ length ops.now }
    ensures { IfOk result (λ v. AreSorted ops.now groups.now (spans_in ops.now spans.now) cut
        (ranks_in ops.now groups.now (spans_in ops.now spans.now) cut v.items)) }
{
    let mut places = Vec::new(alloc);
    for place in 0..ops.len() {
        if group_stands(ops, spans, cut, groups[place]) {
            places.push(place)?;
        }
    }
    places.sort_unstable_by_key(|place| rank_at(ops, groups, spans, cut, *place));
    Ok(places)
}

/// Whether an operation has a group, and one that stands.
fn group_stands<R>(
    ops: &[Op<R>],
    spans: &[Marks],
    cut: Option<Option<u64>>,
    group: Option<usize>,
) -> bool
    ensures { result ≡ stands_with cut (spans_in ops.now spans.now) (Some group) }
{
    match group {
        Some(group) => stands(cut, group, span_at(ops, spans, group)),
        None => false,
    }
}

/// The rank of the operation at a place. Without a group it has that of the opening.
pub(crate) fn rank_at<R>(
    ops: &[Op<R>],
    groups: &[Option<usize>],
    spans: &[Marks],
    cut: Option<Option<u64>>,
    place: usize,
) -> Rank
    ensures { result ≡ rank_in ops.now groups.now (spans_in ops.now spans.now) cut place }
{
    let group = group_at(groups, place);
    let span = span_at(ops, spans, group);
    let (answers, starts) = match ops.get(place) {
        Some(op) => (op.kind != Kind::Write, op.starts),
        None => (true, 0),
    };
    Rank {
        late: late(cut, group, span),
        first: first(group, span),
        last: last(group, span),
        group,
        answers,
        starts,
        place,
    }
}

/// The group of the operation at a place, or else that of the opening.
pub(crate) fn group_at(groups: &[Option<usize>], place: usize) -> usize
    ensures { result ≡ group_or (slice_get groups.now place) }
{
    match groups.get(place) {
        Some(Some(group)) => *group,
        _ => 0,
    }
}

/// The span of a group.
pub(crate) fn span_at<R>(ops: &[Op<R>], spans: &[Marks], group: usize) -> Option<Span>
    ensures { result ≡ slice_get (spans_in ops.now spans.now) group }
{
    match spans.get(group) {
        Some(marks) => Some(span_in(ops, *marks)),
        None => None,
    }
}

/// The earliest end of a group.
pub(crate) fn end(span: Option<Span>) -> Option<u64>
    ensures { result ≡ end_in span }
{
    match span {
        None => None,
        Some(span) => match span.ends {
            None => None,
            Some(m) => Some(m.at),
        },
    }
}

/// The latest beginning of a group.
fn begin(span: Option<Span>) -> u64
    ensures { result ≡ begin_in span }
{
    match span {
        None => 0,
        Some(span) => match span.begins {
            None => 0,
            Some(m) => m.at,
        },
    }
}

/// Whether a write of a group was refused.
fn asks(span: Option<Span>) -> bool
    ensures { result ≡ asks_in span }
{
    match span {
        None => false,
        Some(span) => span.refused.is_some(),
    }
}

fn first(group: usize, span: Option<Span>) -> u64
    ensures { result ≡ first_in group span }
{
    if group == 0 {
        return 0;
    }
    let begin = begin(span);
    match end(span) {
        None => begin,
        Some(end) => end.min(begin),
    }
}

fn last(group: usize, span: Option<Span>) -> u64
    ensures { result ≡ last_in group span }
{
    if group == 0 { 0 } else { begin(span) }
}

fn is_above(end: Option<u64>, begin: u64) -> bool
    ensures { result ≡ is_above end begin }
{
    match end {
        None => false,
        Some(end) => end < begin,
    }
}

/// Whether a group is late by this end.
pub(crate) fn is_late(end: Option<u64>, group: usize, span: Option<Span>) -> bool
    ensures { result ≡ is_late end group span }
{
    if group == 0 {
        return false;
    }
    asks(span) || is_above(end, begin(span))
}

fn late(cut: Option<Option<u64>>, group: usize, span: Option<Span>) -> bool
    ensures { result ≡ late_in cut group span }
{
    match cut {
        None => false,
        Some(end) => is_late(end, group, span),
    }
}

fn stands(cut: Option<Option<u64>>, group: usize, span: Option<Span>) -> bool
    ensures { result ≡ stands_in cut group span }
{
    match cut {
        None => end(span).is_some(),
        Some(late_end) => end(span).is_some() || !is_late(late_end, group, span),
    }
}
