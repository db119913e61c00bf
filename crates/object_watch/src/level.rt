//! What one end leaves, an operation at a time.

ghost use Rattle.std.specs.Prelude.{◌≡◌, ◌↔◌, ◌<◌, ◌≤◌, ℕ, List, IfOk, IfSome, IsTrue, OnOk, Some, length};
ghost use Rattle.object_watch.specs.Remainders.{removed};
ghost use Rattle.object_watch.specs.inner.Levels.{AreAllTried, IsAlike, IsCopiedAt, IsEnding, IsEndingAt, IsGrownBy};
ghost use Rattle.object_watch.specs.inner.Levels.{IsHeldWithSpare, IsNeedless, IsLedOn, IsLeftOutIn, IsMet, IsPlacedIn};
ghost use Rattle.object_watch.specs.inner.Levels.{IsPureAt};
ghost use Rattle.object_watch.specs.inner.Levels.{IsPureStep, IsPutAmong, HasStandIn, IsTriedIn, IsLookedInto};
ghost use Rattle.object_watch.specs.inner.Levels.{AreWithSpare, is_spare};
ghost use Rattle.object_sweep.specs.inner.Steps.{IsInPlaceOf};

use crate::remainder::Remainder;
use object_core::{Object, Operation};
use std::alloc::{AllocError, Global};

/// Whether nothing tells two operations apart.
fn is_alike<O: Object>(one: &Operation<O::What>, other: &Operation<O::What>) -> bool
    ensures { IsTrue result → IsAlike O.after one.now other.now }
{
    one.starts == other.starts
        && one.ends == other.ends
        && one.maybe == other.maybe
        && O::is_same(one.what, other.what)
}

/// Whether no order needs an operation at this end or later.
fn is_spare<W>(end: u64, op: &Operation<W>) -> bool
    ensures { result ≡ is_spare end op.now }
{
    match op.ends {
        Some(at) => op.maybe && at != end,
        None => true,
    }
}

/// How many of these are met with one more of the others, if that is the next of them or is spare.
fn next_met<O: Object>(
    end: u64,
    rest: &[Operation<O::What>],
    met: usize,
    other: &Operation<O::What>,
) -> Option<usize>
    ensures { IfSome result (IsMet O.after end rest.now met other.now) }
{
    if met < rest.len() && is_alike::<O>(&rest[met], other) {
        return Some(met + 1);
    }
    if is_spare(end, other) {
        return Some(met);
    }
    None
}

/// Whether the others are these, in their order, and spare ones.
fn is_within<O: Object>(
    end: u64,
    rest: &[Operation<O::What>],
    others: &[Operation<O::What>],
) -> bool
    ensures { IsTrue result → AreWithSpare O.after end rest.now others.now }
{
    let mut met: usize = 0;
    for i in 0..others.len() {
        match next_met::<O>(end, rest, met, &others[i]) {
            Some(more) => met = more,
            None => return false,
        }
    }
    met == rest.len()
}

/// Whether one of these can do all that can be done from this state with these left.
fn is_covered<O: Object>(
    end: u64,
    held: &[Remainder<O, O::What>],
    state: O,
    rest: &[Operation<O::What>],
) -> bool
    ensures { IsTrue result → IsHeldWithSpare O.after end held.now state rest.now }
{
    for one in held {
        if one.state.is(state) && is_within::<O>(end, rest, one.rest.as_slice()) {
            return true;
        }
    }
    false
}

/// Adds one, unless one covers it.
fn add<O: Object>(
    end: u64,
    held: &mut Vec<Remainder<O, O::What>>,
    state: O,
    rest: Vec<Operation<O::What>>,
) -> Result<(), AllocError>
    ensures { OnOk result (IsPutAmong O.after end held.old.items state rest.items held.new.items) }
{
    if is_covered(end, held.as_slice(), state, rest.as_slice()) {
        return Ok(());
    }
    held.push(Remainder { state, rest })?;
    Ok(())
}

/// All but the operation at a place.
#[tactic(auto, using(crate::proofs::Taking::two_parts))]
fn removed<W: Copy>(
    alloc: Global,
    rest: &[Operation<W>],
    place: usize,
) -> Result<Vec<Operation<W>>, AllocError>
    requires { place < length rest.now }
    ensures { IfOk result (λ v. v.items ≡ removed place rest.now) }
{
    let mut left = Vec::with_capacity(alloc, rest.len())?;
    left.extend_from_slice(&rest[..place])?;
    left.extend_from_slice(&rest[place + 1..])?;
    Ok(left)
}

fn ends_at<W>(op: &Operation<W>, end: u64) -> bool
    ensures { IsTrue result ↔ (op.now.ends ≡ Some end) }
{
    match op.ends {
        Some(at) => at == end,
        None => false,
    }
}

/// The first of these operations that ends then.
pub(crate) fn ending_at<W>(rest: &[Operation<W>], end: u64) -> Option<usize>
    ensures { IsEnding rest.now end result }
{
    for place in 0..rest.len() {
        if ends_at(&rest[place], end) {
            return Some(place);
        }
    }
    None
}

/// Whether no order needs an operation, whenever it ends: it may have done nothing, and leaves every state as it is.
pub(crate) fn is_idle<O: Object>(op: &Operation<O::What>) -> bool
    ensures { IsTrue result → IsNeedless O.after op.now }
{
    (op.maybe || op.ends.is_none()) && O::is_pure(op.what)
}

/// Adds what is left without the operation at a place.
fn add_without<O: Object>(
    alloc: Global,
    end: u64,
    from: &Remainder<O, O::What>,
    place: usize,
    state: O,
    seen: &mut Vec<Remainder<O, O::What>>,
) -> Result<(), AllocError>
    requires { place < length from.now.rest.items }
    ensures { OnOk result (IsPutAmong O.after end seen.old.items state (removed place from.now.rest.items)
        seen.new.items) }
{
    let rest = removed(alloc, from.rest.as_slice(), place)?;
    add(end, seen, state, rest)
}

/// Places one operation, if it began by then and can be placed.
fn try_place<O: Object>(
    alloc: Global,
    end: u64,
    from: &Remainder<O, O::What>,
    place: usize,
    seen: &mut Vec<Remainder<O, O::What>>,
) -> Result<(), AllocError>
    requires { place < length from.now.rest.items }
    ensures grown { OnOk result (IsGrownBy O.after end from.now.state from.now.rest.items seen.old.items
        seen.new.items) }
    ensures placed { OnOk result (IsPlacedIn O.after end from.now.state from.now.rest.items place seen.new.items) }
{
    let op = from.rest.as_slice()[place];
    if end < op.starts {
        return Ok(());
    }
    match from.state.step(op.what) {
        Some(state) => add_without(alloc, end, from, place, state, seen),
        None => Ok(()),
    }
}

/// Whether the first of these ended no later. One that never ended is the last.
fn ends_no_later(end: Option<u64>, other: Option<u64>) -> bool
    ensures { IsTrue result → (y : ℕ) → other ≡ Some y → (x : ℕ) × (end ≡ Some x) × (x ≤ y) }
{
    match (end, other) {
        (_, None) => true,
        (None, Some(_)) => false,
        (Some(end), Some(other)) => end <= other,
    }
}

/// Whether one operation may be placed in the place of another.
fn is_in_place_of<O: Object>(one: &Operation<O::What>, other: &Operation<O::What>) -> bool
    ensures { IsTrue result → IsInPlaceOf O.after one.now other.now }
{
    O::is_same(one.what, other.what)
        && (one.ends.is_some() && !one.maybe || other.ends.is_none() || other.maybe)
        && ends_no_later(one.ends, other.ends)
}

/// Whether an earlier one of these may be placed for that at a place, where both began by then. Of many that wait most
/// begin later.
fn is_stood_for<O: Object>(end: u64, rest: &[Operation<O::What>], place: usize) -> bool
    requires { place < length rest.now }
    ensures { IsTrue result → HasStandIn O.after end rest.now place }
{
    if end < rest[place].starts {
        return false;
    }
    for i in 0..place {
        let one = &rest[i];
        if one.starts <= end && is_in_place_of::<O>(one, &rest[place]) {
            return true;
        }
    }
    false
}

/// Places one operation, unless an earlier one may be placed for it.
fn try_first<O: Object>(
    alloc: Global,
    end: u64,
    from: &Remainder<O, O::What>,
    place: usize,
    seen: &mut Vec<Remainder<O, O::What>>,
) -> Result<(), AllocError>
    requires { place < length from.now.rest.items }
    ensures grown { OnOk result (IsGrownBy O.after end from.now.state from.now.rest.items seen.old.items
        seen.new.items) }
    ensures tried { OnOk result (IsTriedIn O.after end from.now.state from.now.rest.items place seen.new.items) }
{
    if is_stood_for::<O>(end, from.rest.as_slice(), place) {
        return Ok(());
    }
    try_place(alloc, end, from, place, seen)
}

/// Leaves out the operation at a place, which ends then, if it may have done nothing.
fn leave_out<O: Object>(
    alloc: Global,
    end: u64,
    from: &Remainder<O, O::What>,
    place: usize,
    seen: &mut Vec<Remainder<O, O::What>>,
) -> Result<(), AllocError>
    requires { IsEndingAt from.now.rest.items end place }
    ensures grown { OnOk result (IsGrownBy O.after end from.now.state from.now.rest.items seen.old.items
        seen.new.items) }
    ensures left { OnOk result (IsLeftOutIn O.after end from.now.state from.now.rest.items place seen.new.items) }
{
    if from.rest.as_slice()[place].maybe {
        add_without(alloc, end, from, place, from.state, seen)
    } else {
        Ok(())
    }
}

/// All that one leads to at the end of the operation at a place.
fn explore<O: Object>(
    alloc: Global,
    end: u64,
    from: &Remainder<O, O::What>,
    place: usize,
    seen: &mut Vec<Remainder<O, O::What>>,
) -> Result<(), AllocError>
    requires { IsEndingAt from.now.rest.items end place }
    ensures grown { OnOk result (IsGrownBy O.after end from.now.state from.now.rest.items seen.old.items
        seen.new.items) }
    ensures tried { OnOk result (AreAllTried O.after end from.now.state from.now.rest.items place
        (length from.now.rest.items) seen.new.items) }
{
    leave_out(alloc, end, from, place, seen)?;
    for other in 0..from.rest.len() {
        try_first(alloc, end, from, other, seen)?;
    }
    Ok(())
}

/// Whether an operation is sure and pure, began by then and can be placed.
fn is_pure_step<O: Object>(end: u64, op: &Operation<O::What>, state: O) -> bool
    ensures { IsTrue result → IsPureStep O.after end op.now state }
{
    op.ends.is_some()
        && !op.maybe
        && op.starts <= end
        && O::is_pure(op.what)
        && state.step(op.what).is_some()
}

/// The first of these.
fn pure_next<O: Object>(end: u64, from: &Remainder<O, O::What>) -> Option<usize>
    ensures { IfSome result (IsPureAt O.after end from.now.state from.now.rest.items) }
{
    let rest = from.rest.as_slice();
    for place in 0..rest.len() {
        if is_pure_step(end, &rest[place], from.state) {
            return Some(place);
        }
    }
    None
}

/// What one leads to at the end of the operation at a place. If a pure operation can be placed, that is placed alone.
fn lead_on<O: Object>(
    alloc: Global,
    end: u64,
    from: &Remainder<O, O::What>,
    place: usize,
    seen: &mut Vec<Remainder<O, O::What>>,
) -> Result<(), AllocError>
    requires { IsEndingAt from.now.rest.items end place }
    ensures { OnOk result (IsLedOn O.after end from.now.state from.now.rest.items seen.old.items seen.new.items) }
{
    match pure_next(end, from) {
        Some(pure) => try_place(alloc, end, from, pure, seen),
        None => explore(alloc, end, from, place, seen),
    }
}

/// Visits one: what it leads to is seen, and it is kept if nothing of it ends then.
pub(crate) fn visit<O: Object>(
    alloc: Global,
    end: u64,
    from: &Remainder<O, O::What>,
    seen: &mut Vec<Remainder<O, O::What>>,
    kept: &mut Vec<Remainder<O, O::What>>,
) -> Result<(), AllocError>
    ensures { OnOk result (IsLookedInto O.after end from.now.state from.now.rest.items seen.old.items kept.old.items
        seen.new.items kept.new.items) }
{
    match ending_at(from.rest.as_slice(), end) {
        Some(place) => lead_on(alloc, end, from, place, seen),
        None => {
            let rest = Vec::from_slice(alloc, from.rest.as_slice())?;
            add(end, kept, from.state, rest)
        }
    }
}

/// The one at a place, in memory of its own.
pub(crate) fn copied<O: Object>(
    alloc: Global,
    held: &[Remainder<O, O::What>],
    place: usize,
) -> Result<Remainder<O, O::What>, AllocError>
    requires { place < length held.now }
    ensures { IfOk result (IsCopiedAt held.now place) }
{
    let one = &held[place];
    Ok(Remainder {
        state: one.state,
        rest: Vec::from_slice(alloc, one.rest.as_slice())?,
    })
}
