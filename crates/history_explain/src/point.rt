//! The points of an order: a moment in each operation's interval, that never falls along the order.

ghost use Rattle.std.specs.Prelude.{◌≡◌, ◌↔◌, IfOk, IsTrue, MatchOption, length};
ghost use Rattle.history_explain.specs.inner.Earliest.{AreReached, begin_at, earliest, IsReached};
ghost use Rattle.history_explain.specs.Points.{AreEarliest, HasPoints};

use history_core::{History, Items, Op};
use std::alloc::{AllocError, Global};

/// The earliest points of the order, one for each entry; none where it has none. An entry that is no place has the
/// point of the entry before it.
pub fn points<R>(
    alloc: Global,
    h: &History<R>,
    order: &[usize],
) -> Result<Option<Items<u64>>, AllocError>
    ensures { IfOk result
        (λ found. MatchOption found (¬ HasPoints h.now.ops order.now) (AreEarliest h.now.ops order.now)) }
{
    let ops = h.ops.as_slice();
    let points = earliest(alloc, ops, order)?;
    if are_reached(ops, order, points.as_slice()) {
        Ok(Some(Items::new(points)))
    } else {
        Ok(None)
    }
}

/// The latest beginning of the operations up to each entry.
fn earliest<R>(alloc: Global, ops: &[Op<R>], order: &[usize]) -> Result<Vec<u64>, AllocError>
    ensures { IfOk result (λ v. v.items ≡ earliest ops.now 0 order.now) }
{
    let mut points = Vec::with_capacity(alloc, order.len().min(MOST_ROOM))?;
    let mut latest: u64 = 0;
    for i in 0..order.len() {
        latest = begin_at(latest, ops, order[i]);
        points.push(latest)?;
    }
    Ok(points)
}

/// The greatest number of points for which room is made before they are known.
const MOST_ROOM: usize = 100_000;

fn begin_at<R>(latest: u64, ops: &[Op<R>], place: usize) -> u64
    ensures { result ≡ begin_at latest ops.now place }
{
    match ops.get(place) {
        Some(op) => latest.max(op.starts),
        None => latest,
    }
}

/// Whether no operation ends before its point.
fn are_reached<R>(ops: &[Op<R>], order: &[usize], points: &[u64]) -> bool
    requires { length points.now ≡ length order.now }
    ensures { IsTrue result ↔ AreReached ops.now order.now points.now }
{
    for i in 0..order.len() {
        if !is_reached(ops, order[i], points[i]) {
            return false;
        }
    }
    true
}

fn is_reached<R>(ops: &[Op<R>], place: usize, point: u64) -> bool
    ensures { IsTrue result ↔ IsReached ops.now place point }
{
    match ops.get(place) {
        Some(op) => match op.ends {
            Some(end) => point <= end,
            None => true,
        },
        None => true,
    }
}
