//! The span of a group: its earliest end and its latest beginning.

ghost use Rattle.std.specs.Prelude.{◌≡◌, ◌+◌, ◌≤◌, ℕ, length, IfNone, IfOk, IfSome, None, Some, replicate, slice_get};
ghost use Rattle.std.specs.Prelude.{if◌then◌else◌};
ghost use Rattle.history_search.specs.inner.Groups.{AreSpans, beginning, begins_last, empty_marks, ending, ends_before};
ghost use Rattle.history_search.specs.inner.Groups.{ends_first, found_at, is_refused, joined_marks, nowhere, span_in};
ghost use Rattle.history_search.specs.inner.Groups.{spans_in};
ghost use Rattle.history_search.specs.inner.Found.{EndsBefore, IsEarlyIn, IsStaleIn, NoneEarlyIn};
ghost use Rattle.history_search.specs.inner.Found.{NoneEndsBefore, NoneStaleIn};

use history_core::{Kind, Op};
use std::alloc::{AllocError, Global};

/// A moment, and the place of the operation that ends or begins then.
#[derive(Clone, Copy)]
pub struct Moment {
    pub at: u64,
    pub place: usize,
}

/// What the operations of one record have between them.
#[derive(Clone, Copy)]
pub struct Span {
    /// The earliest end; none where no operation is finished.
    pub ends: Option<Moment>,
    /// The latest beginning; none where there is no operation.
    pub begins: Option<Moment>,
    /// The place of a refused write.
    pub refused: Option<usize>,
}

/// The places of the operations that a span goes by. `NOWHERE` stands for none.
#[derive(Clone, Copy)]
pub struct Marks {
    /// The operation with the earliest end.
    pub ends: u32,
    /// That with the latest beginning.
    pub begins: u32,
    /// A refused write.
    pub refused: u32,
}

/// No operation has this place.
const NOWHERE: u32 = u32::MAX;

/// The marks of no operation.
const EMPTY: Marks = Marks {
    ends: NOWHERE,
    begins: NOWHERE,
    refused: NOWHERE,
};

/// The spans of all groups. There is no memory for more operations than there are places.
pub(crate) fn span_groups<R>(
    alloc: Global,
    ops: &[Op<R>],
    groups: &[Option<usize>],
) -> Result<Vec<Marks>, AllocError>
    requires long { length groups.now ≡ length ops.now }
    requires within { (p g : ℕ) → slice_get groups.now p ≡ Some (Some g) → g ≤ length ops.now }
    ensures { IfOk result (λ v. AreSpans ops.now groups.now (length ops.now) (spans_in ops.now v.items)) }
{
    if ops.len() > NOWHERE as usize {
        return Err(AllocError);
    }
    let mut spans = Vec::new(alloc);
    spans.resize(ops.len() + 1, EMPTY)?;
    join_ops(spans.as_mut_slice(), ops, groups);
    Ok(spans)
}

/// Joins each operation to the span of its group.
fn join_ops<R>(spans: &mut [Marks], ops: &[Op<R>], groups: &[Option<usize>])
    requires few { length ops.now ≤ nowhere }
    requires long { length groups.now ≡ length ops.now }
    requires within { (p g : ℕ) → slice_get groups.now p ≡ Some (Some g) → g ≤ length ops.now }
    requires empty { AreSpans ops.now groups.now 0 (spans_in ops.now spans.old) }
    ensures { AreSpans ops.now groups.now (length ops.now) (spans_in ops.now spans.new) }
{
    for place in 0..ops.len() {
        if let Some(group) = groups[place] {
            let marks = joined(ops, spans[group], &ops[place], place as u32);
            spans[group] = marks;
        }
    }
}

/// The span that marks stand for.
pub(crate) fn span_in<R>(ops: &[Op<R>], marks: Marks) -> Span
    ensures { result ≡ span_in ops.now marks }
{
    Span {
        ends: ending(ops, marks.ends),
        begins: beginning(ops, marks.begins),
        refused: found_at(ops, marks.refused),
    }
}

/// The moment at which the operation at a place ends, if it does.
fn ending<R>(ops: &[Op<R>], place: u32) -> Option<Moment>
    ensures { result ≡ ending (slice_get ops.now place) place }
{
    match ops.get(place as usize) {
        Some(op) => match op.ends {
            Some(at) => Some(Moment {
                at,
                place: place as usize,
            }),
            None => None,
        },
        None => None,
    }
}

/// The moment at which it begins.
fn beginning<R>(ops: &[Op<R>], place: u32) -> Option<Moment>
    ensures { result ≡ beginning (slice_get ops.now place) place }
{
    match ops.get(place as usize) {
        Some(op) => Some(Moment {
            at: op.starts,
            place: place as usize,
        }),
        None => None,
    }
}

/// The place itself, where there is an operation.
fn found_at<R>(ops: &[Op<R>], place: u32) -> Option<usize>
    ensures { result ≡ found_at (slice_get ops.now place) place }
{
    match ops.get(place as usize) {
        Some(_) => Some(place as usize),
        None => None,
    }
}

/// The marks with one more operation, which is at this place.
fn joined<R>(ops: &[Op<R>], marks: Marks, op: &Op<R>, place: u32) -> Marks
    ensures { result ≡ joined_marks ops.now marks op.now place }
{
    let first = ends_first(ending(ops, marks.ends), op.ends);
    let last = begins_last(beginning(ops, marks.begins), op.starts);
    Marks {
        ends: taken(first, place, marks.ends),
        begins: taken(last, place, marks.begins),
        refused: taken(is_refused(op.kind), place, marks.refused),
    }
}

fn taken(takes: bool, place: u32, kept: u32) -> u32
    ensures { result ≡ (if takes then place else kept) }
{
    if takes { place } else { kept }
}

/// Whether this end is earlier than the earliest so far.
fn ends_first(ends: Option<Moment>, end: Option<u64>) -> bool
    ensures { result ≡ ends_first ends end }
{
    match (ends, end) {
        (_, None) => false,
        (None, Some(_)) => true,
        (Some(m), Some(at)) => at < m.at,
    }
}

/// Whether this beginning is later than the latest so far.
fn begins_last(begins: Option<Moment>, at: u64) -> bool
    ensures { result ≡ begins_last begins at }
{
    match begins {
        None => true,
        Some(m) => m.at < at,
    }
}

fn is_refused(kind: Kind) -> bool
    ensures { result ≡ is_refused kind }
{
    match kind {
        Kind::Refused => true,
        Kind::Write | Kind::Read => false,
    }
}

/// The place of a group's earliest end, where that is before this moment.
fn ends_before(ends: Option<Moment>, moment: u64) -> Option<usize>
    ensures { result ≡ ends_before ends moment }
{
    match ends {
        Some(m) => if m.at < moment { Some(m.place) } else { None },
        None => None,
    }
}

/// A read or refused write that precedes the write of its record.
#[derive(Clone, Copy)]
pub struct EarlyRead {
    pub read: usize,
    pub write: usize,
}

pub(crate) fn first_early<R>(ops: &[Op<R>], spans: &[Marks]) -> Option<EarlyRead>
    requires { length spans.now ≡ length ops.now + 1 }
    ensures some { IfSome result (λ e. IsEarlyIn ops.now (spans_in ops.now spans.now) e.read e.write) }
    ensures none { IfNone result (NoneEarlyIn ops.now (spans_in ops.now spans.now) (length ops.now)) }
{
    for write in 0..ops.len() {
        let span = span_in(ops, spans[write + 1]);
        match ends_before(span.ends, ops[write].starts) {
            Some(read) => return Some(EarlyRead { read, write }),
            None => {}
        }
    }
    None
}

/// A read or refused write of the opening, and an operation of another record that precedes it.
#[derive(Clone, Copy)]
pub struct StaleRead {
    pub before: usize,
    pub read: usize,
}

pub(crate) fn first_stale<R>(ops: &[Op<R>], spans: &[Marks]) -> Option<StaleRead>
    requires { 1 ≤ length spans.now }
    ensures some { IfSome result (λ s. IsStaleIn (spans_in ops.now spans.now) s.before s.read) }
    ensures none { IfNone result (NoneStaleIn (spans_in ops.now spans.now)) }
{
    let opened = span_in(ops, spans[0]);
    match opened.begins {
        None => None,
        Some(m) => match first_before(ops, spans, m.at) {
            None => None,
            Some(before) => Some(StaleRead {
                before,
                read: m.place,
            }),
        },
    }
}

/// The first operation of another record than the opening that ends before this moment.
fn first_before<R>(ops: &[Op<R>], spans: &[Marks], moment: u64) -> Option<usize>
    ensures some { IfSome result (EndsBefore (spans_in ops.now spans.now) moment) }
    ensures none { IfNone result (NoneEndsBefore (spans_in ops.now spans.now) moment) }
{
    for group in 1..spans.len() {
        let span = span_in(ops, spans[group]);
        match ends_before(span.ends, moment) {
            Some(before) => return Some(before),
            None => {}
        }
    }
    None
}
