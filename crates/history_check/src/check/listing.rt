//! The first rule: every entry is a place, and every operation stands as often as it may.

ghost use Rattle.std.specs.Prelude.{◌≡◌, ◌+◌, ◌-◌, ◌≤◌, ◌↔◌, IsTrue, IsFalse, length, if◌then◌else◌};
ghost use Rattle.history_check.specs.inner.Marks.{AddsMark, HasMark};
ghost use Rattle.history_core.specs.Orders.{EachStands, ListsPlaces, MayStand};

use history_core::{Kind, Op};

/// How many operations one pass over the order looks for.
const BLOCK: usize = 4096;

pub(super) fn lists_places<R>(ops: &[Op<R>], order: &[usize]) -> bool
    ensures { IsTrue result ↔ ListsPlaces ops.now order.now }
{
    for place in order {
        if *place >= ops.len() {
            return false;
        }
    }
    true
}

/// Whether each operation stands as often as it may. It goes over the order once for each block of operations.
pub(super) fn stands<R>(ops: &[Op<R>], order: &[usize]) -> bool
    requires { ListsPlaces ops.now order.now }
    ensures { IsTrue result ↔ EachStands ops.now order.now 0 (length ops.now) }
{
    let mut seen = [false; BLOCK];
    for block in 0..ops.len() / BLOCK + 1 {
        if !block_stands(ops, order, block * BLOCK, &mut seen) {
            return false;
        }
    }
    true
}

/// The same for the operations of one block, from the place `base` on.
fn block_stands<R>(ops: &[Op<R>], order: &[usize], base: usize, seen: &mut [bool]) -> bool
    requires places { ListsPlaces ops.now order.now }
    requires base_in { base ≤ length ops.now }
    ensures { IsTrue result ↔ EachStands ops.now order.now base (base + length seen.old) }
{
    seen.fill(false);
    for place in order {
        if !mark(seen, base, *place) {
            return false;
        }
    }
    for at in 0..seen.len().min(ops.len() - base) {
        if !may_stand(&ops[base + at], seen[at]) {
            return false;
        }
    }
    true
}

/// Marks a place of the block that begins at `base`, and says whether it was not marked before. A place of another
/// block changes nothing, and the answer is that it wasn't.
fn mark(seen: &mut [bool], base: usize, place: usize) -> bool
    ensures len { length seen.new ≡ length seen.old }
    ensures first { IsTrue result → AddsMark seen.old seen.new base place }
    ensures again { IsFalse result → base ≤ place × HasMark seen.old (place - base) }
{
    if place < base || place - base >= seen.len() {
        return true;
    }
    let fresh = !seen[place - base];
    seen[place - base] = true;
    fresh
}

/// Whether an operation may stand once, or if it doesn't stand, may be missing.
fn may_stand<R>(op: &Op<R>, once: bool) -> bool
    ensures { IsTrue result ↔ MayStand op.now.ends op.now.kind (if once then 1 else 0) }
{
    match op.ends {
        Some(_) => once,
        None => op.kind == Kind::Write || !once,
    }
}
