//! The next end, and the last one.

ghost use Rattle.std.specs.Prelude.{◌≡◌, ℕ, ◌+◌, ◌≤◌, Some, IfNone, IfSome, length};
ghost use Rattle.object_watch.specs.inner.Levels.{IsEndingIn, IsLatest, IsLatestOf, IsSoonestEnd, IsSoonerOf};
ghost use Rattle.object_watch.specs.inner.Levels.{IsSoonestBelow, later_end, NoneIsOverBefore, sooner_end};

use crate::level::ending_at;
use crate::remainder::Remainder;
use object_core::Operation;

/// An operation that ends, and when.
#[derive(Clone, Copy, Drop)]
pub(crate) struct End<W> {
    pub at: u64,
    pub op: Operation<W>,
}

/// The sooner one of two ends, the second if it is no later than this.
fn sooner_end(last: u64, least: Option<u64>, ends: Option<u64>) -> Option<u64>
    ensures { result ≡ sooner_end last least ends }
{
    match (least, ends) {
        (None, None) => None,
        (None, Some(end)) => if end <= last { Some(end) } else { None },
        (Some(least), None) => Some(least),
        (Some(least), Some(end)) => if end < least { Some(end) } else { Some(least) },
    }
}

/// The sooner one of an end and those of these operations.
fn sooner_of<W>(last: u64, rest: &[Operation<W>], least: Option<u64>) -> Option<u64>
    requires { (at : ℕ) → least ≡ Some at → at ≤ last }
    ensures { IsSoonerOf last (length rest.now) rest.now least result }
{
    let mut sooner = least;
    for place in 0..rest.len() {
        sooner = sooner_end(last, sooner, rest[place].ends);
    }
    sooner
}

/// The soonest end of all of these, if one is no later than this.
fn soonest_end<O, W>(held: &[Remainder<O, W>], last: u64) -> Option<u64>
    ensures { IsSoonestBelow last (length held.now) held.now result }
{
    let mut end = None;
    for i in 0..held.len() {
        end = sooner_of(last, held[i].rest.as_slice(), end);
    }
    end
}

/// An operation of these that ends then.
fn ending_in<O, W: Copy>(held: &[Remainder<O, W>], at: u64) -> Option<Operation<W>>
    ensures { IsEndingIn held.now at result }
{
    for one in held {
        if let Some(place) = ending_at(one.rest.as_slice(), at) {
            return Some(one.rest.as_slice()[place]);
        }
    }
    None
}

/// The soonest end of all of these, if one is no later than this.
pub(crate) fn next_end<O, W: Copy>(held: &[Remainder<O, W>], last: u64) -> Option<End<W>>
    ensures none { IfNone result (NoneIsOverBefore (last + 1) held.now) }
    ensures some { IfSome result (IsSoonestEnd last held.now) }
{
    let at = soonest_end(held, last)?;
    let op = ending_in(held, at)?;
    Some(End { at, op })
}

/// The later one of two moments, of which the second may not be.
fn later_end(most: u64, ends: Option<u64>) -> u64
    ensures { result ≡ later_end most ends }
{
    match ends {
        Some(end) => most.max(end),
        None => most,
    }
}

/// The later one of a moment and the ends of these operations.
fn latest_of<W>(rest: &[Operation<W>], most: u64) -> u64
    ensures { IsLatestOf (length rest.now) rest.now most result }
{
    let mut latest = most;
    for place in 0..rest.len() {
        latest = later_end(latest, rest[place].ends);
    }
    latest
}

/// The last of this moment and of all ends of these.
pub(crate) fn latest_end<O, W>(held: &[Remainder<O, W>], moment: u64) -> u64
    ensures { IsLatest (length held.now) held.now moment result }
{
    let mut latest = moment;
    for i in 0..held.len() {
        latest = latest_of(held[i].rest.as_slice(), latest);
    }
    latest
}
