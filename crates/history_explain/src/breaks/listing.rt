//! What breaks the first rule: an entry that is no place, or an operation that stands too often or too seldom.

ghost use Rattle.std.specs.Prelude.{◌≡◌, ◌+◌, ◌<◌, ◌≤◌, ◌^◌, ◌↔◌, ℕ, IfNone, IfSome, IsTrue, length, slice_index};
ghost use Rattle.history_explain.specs.Breaks.{IsMiscounted, IsNoPlace};
ghost use Rattle.history_explain.specs.inner.Searches.{AddsOne};
ghost use Rattle.history_core.specs.Orders.{EachStands, ListsPlaces, MayStand, times_of};

use history_core::{Kind, Op};

/// How many operations one pass over the order counts.
const BLOCK: usize = 4096;

pub(super) fn no_place<R>(ops: &[Op<R>], order: &[usize]) -> Option<usize>
    ensures none { IfNone result (ListsPlaces ops.now order.now) }
    ensures some { IfSome result (IsNoPlace ops.now order.now) }
{
    for (entry, place) in order.iter().enumerate() {
        if *place >= ops.len() {
            return Some(entry);
        }
    }
    None
}

/// The first operation that stands too often or too seldom, with the number of times.
pub(super) fn miscounted<R>(ops: &[Op<R>], order: &[usize]) -> Option<(usize, usize)>
    requires { ListsPlaces ops.now order.now }
    ensures none { IfNone result (EachStands ops.now order.now 0 (length ops.now)) }
    ensures some { IfSome result (λ r. IsMiscounted ops.now order.now r.0 r.1) }
{
    let mut counts = [0; BLOCK];
    for block in 0..ops.len() / BLOCK + 1 {
        let base = block * BLOCK;
        count_block(order, base, &mut counts);
        if let Some(found) = miscounted_in(ops, order, base, &counts) {
            return Some(found);
        }
    }
    None
}

/// How often the order lists each place of the block that begins at `base`.
fn count_block(order: &[usize], base: usize, counts: &mut [usize])
    ensures len { length counts.new ≡ length counts.old }
    ensures counted { (k : ℕ) → k < length counts.old → slice_index counts.new k ≡ times_of (base + k) order.now }
{
    counts.fill(0);
    for place in order {
        add_one(counts, base, *place);
    }
}

fn add_one(counts: &mut [usize], base: usize, place: usize)
    requires { (k : ℕ) → k < length counts.old → slice_index counts.old k + 1 < 2 ^ 64 }
    ensures len { length counts.new ≡ length counts.old }
    ensures added { AddsOne counts.old counts.new base place }
{
    if place < base || place - base >= counts.len() {
        return;
    }
    counts[place - base] += 1;
}

/// The first operation of the block that stands too often or too seldom.
fn miscounted_in<R>(
    ops: &[Op<R>],
    order: &[usize],
    base: usize,
    counts: &[usize],
) -> Option<(usize, usize)>
    requires places { ListsPlaces ops.now order.now }
    requires before { EachStands ops.now order.now 0 base }
    requires base_in { base ≤ length ops.now }
    requires counted { (k : ℕ) → k < length counts.now → slice_index counts.now k ≡ times_of (base + k) order.now }
    ensures none { IfNone result (EachStands ops.now order.now 0 (base + length counts.now)) }
    ensures some { IfSome result (λ r. IsMiscounted ops.now order.now r.0 r.1) }
{
    for at in 0..counts.len().min(ops.len() - base) {
        if !may_stand(&ops[base + at], counts[at]) {
            return Some((base + at, counts[at]));
        }
    }
    None
}

/// Whether an operation may stand this often.
fn may_stand<R>(op: &Op<R>, times: usize) -> bool
    ensures { IsTrue result ↔ MayStand op.now.ends op.now.kind times }
{
    match op.ends {
        Some(_) => times == 1,
        None => times == 0 || times == 1 && op.kind == Kind::Write,
    }
}
