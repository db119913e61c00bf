//! The end of one operation.

ghost use Rattle.std.specs.Prelude.{◌≡◌, ℕ, ◌<◌, ◌≤◌, List, nat_eq, length, slice_get, false, Some, IfNone, IfOk};
ghost use Rattle.std.specs.Prelude.{IfSome, IsFalse, IsTrue, OnOk, true};
ghost use Rattle.std.specs.List.Sorted.{IsPermutation};
ghost use Rattle.object_core.specs.declared.operation.Operation.{Operation};
ghost use Rattle.object_sweep.specs.Reached.{is_in};
ghost use Rattle.object_sweep.specs.inner.Ends.{AreAlwaysTooMany};
ghost use Rattle.object_sweep.specs.inner.Steps.{AreStarted, IsClosed, IsCopyAt, IsExplored, EndsFirst, IsIdle};
ghost use Rattle.object_sweep.specs.inner.Steps.{IsLeftOut, IsPassed, IsPureNext, IsPut, IsSorted, IsSureAndPure};
ghost use Rattle.object_sweep.specs.inner.Steps.{IsInPlaceOf, NeedNotBeTried, IsTried, IsVisited, may_be_left_out};
ghost use Rattle.object_sweep.specs.inner.Steps.{MayStandFor, StandsInFor, StandsOneFor, step_from, sure_at};

use crate::configuration::Configuration;
use crate::held::add;
use crate::places::{is_in, with, without};
use object_core::{Object, Operation};
use std::alloc::{AllocError, Global};

/// The configurations at the end of an operation.
#[derive(Drop)]
pub(crate) struct Ending<O> {
    /// Those in which it isn't placed.
    pub waiting: Vec<Configuration<O>>,
    /// Those behind its end.
    pub kept: Vec<Configuration<O>>,
}

/// The state after one more operation, if it can be placed.
pub(crate) fn step_from<O: Object>(
    log: &[Operation<O::What>],
    state: O,
    placed: &[usize],
    place: usize,
) -> Option<O>
    ensures { result ≡ step_from O.after log.now state placed.now place }
{
    if is_in(place, placed) {
        return None;
    }
    match log.get(place) {
        Some(op) => state.step(op.what),
        None => None,
    }
}

/// Whether the operation at a place may have done nothing.
fn may_be_left_out<W>(log: &[Operation<W>], place: usize) -> bool
    ensures { result ≡ may_be_left_out log.now place }
{
    match log.get(place) {
        Some(op) => op.maybe,
        None => false,
    }
}

/// Adds the configuration after one more operation: it waits, unless that is the one that ends.
fn put<O: Object>(
    alloc: Global,
    log: &[Operation<O::What>],
    ending: usize,
    placed: &[usize],
    place: usize,
    state: O,
    sets: &mut Ending<O>,
) -> Result<(), AllocError>
    ensures { OnOk result (IsPut (sure_at log.now) (nat_eq place ending) place state placed.now
        sets.old.waiting.items sets.old.kept.items sets.new.waiting.items sets.new.kept.items) }
{
    if place == ending {
        let behind = Vec::from_slice(alloc, placed)?;
        add(log, &mut sets.kept, state, behind)
    } else {
        let more = with(alloc, placed, place)?;
        add(log, &mut sets.waiting, state, more)
    }
}

/// Places one more operation, if it can be.
pub(crate) fn try_place<O: Object>(
    alloc: Global,
    log: &[Operation<O::What>],
    ending: usize,
    from: &Configuration<O>,
    place: usize,
    sets: &mut Ending<O>,
) -> Result<(), AllocError>
    ensures { OnOk result (IsTried (sure_at log.now) (step_from O.after log.now from.now.state from.now.placed.items place)
        ending from.now.placed.items place sets.old.waiting.items sets.old.kept.items sets.new.waiting.items sets.new.kept.items) }
{
    match step_from(log, from.state, from.placed.as_slice(), place) {
        Some(state) => put(
            alloc,
            log,
            ending,
            from.placed.as_slice(),
            place,
            state,
            sets,
        ),
        None => Ok(()),
    }
}

/// Leaves out the operation that ends, if it may have done nothing.
pub(crate) fn leave_out<O: Object>(
    alloc: Global,
    log: &[Operation<O::What>],
    ending: usize,
    from: &Configuration<O>,
    sets: &mut Ending<O>,
) -> Result<(), AllocError>
    ensures { OnOk result (IsLeftOut (sure_at log.now) (may_be_left_out log.now ending) from.now.state
        from.now.placed.items sets.old.waiting.items sets.old.kept.items
        sets.new.waiting.items sets.new.kept.items) }
{
    if !may_be_left_out(log, ending) {
        return Ok(());
    }
    let behind = Vec::from_slice(alloc, from.placed.as_slice())?;
    add(log, &mut sets.kept, from.state, behind)
}

/// Whether an operation may have had no effect, and else leaves every state as it is. It need not be placed.
pub(crate) fn is_idle<O: Object>(log: &[Operation<O::What>], place: usize) -> bool
    ensures { IsTrue result → IsIdle O.after (slice_get log.now place) }
{
    match log.get(place) {
        Some(op) => (op.maybe || op.ends.is_none()) && O::is_pure(op.what),
        None => false,
    }
}

/// Whether the first of these ended no later. One that never ended is the last.
fn ends_no_later(end: Option<u64>, other: Option<u64>) -> bool
    ensures { IsTrue result → (y : ℕ) → other ≡ Some y → (x : ℕ) × (end ≡ Some x) × (x ≤ y) }
{
    match (end, other) {
        (_, None) => true,
        (None, Some(_)) => false,
        (Some(end), Some(other)) => end <= other,
    }
}

/// Whether one operation may be placed in the place of another.
fn is_in_place_of<O: Object>(one: &Operation<O::What>, other: &Operation<O::What>) -> bool
    ensures { IsTrue result → IsInPlaceOf O.after one.now other.now }
{
    O::is_same(one.what, other.what)
        && (one.ends.is_some() && !one.maybe || other.ends.is_none() || other.maybe)
        && ends_no_later(one.ends, other.ends)
}

/// Of ends at one moment that of the lower place comes first.
fn comes_first(end: Option<u64>, other: Option<u64>, place: usize, other_place: usize) -> bool
    ensures { IsTrue result → EndsFirst place other_place end other }
{
    end != other || place <= other_place
}

/// Whether the operation at one place may be placed for that at another.
fn may_stand_for<O: Object>(log: &[Operation<O::What>], one: usize, other: usize) -> bool
    ensures { IsTrue result → MayStandFor O.after one other (slice_get log.now one) (slice_get log.now other) }
{
    match log.get(one) {
        Some(a) => match log.get(other) {
            Some(b) => is_in_place_of::<O>(a, b) && comes_first(a.ends, b.ends, one, other),
            None => false,
        },
        None => false,
    }
}

/// Whether one that isn't placed may be placed for another, and ends no later than the first so far.
fn is_sooner<O: Object>(
    log: &[Operation<O::What>],
    placed: &[usize],
    one: usize,
    first: usize,
    place: usize,
) -> bool
    ensures { IsTrue result → (is_in one placed.now ≡ false)
        × MayStandFor O.after one place (slice_get log.now one) (slice_get log.now place) }
{
    may_stand_for::<O>(log, one, place)
        && may_stand_for::<O>(log, one, first)
        && !is_in(one, placed)
}

/// Which operation is placed for this one, if it isn't placed: of those that may be, one that ends first.
fn first_for<O: Object>(
    log: &[Operation<O::What>],
    under_way: &[usize],
    placed: &[usize],
    place: usize,
) -> usize
    ensures { StandsInFor O.after log.now under_way.now placed.now result place }
{
    let mut first = place;
    if is_in(first, placed) {
        return first;
    }
    for other in under_way {
        if is_sooner::<O>(log, placed, *other, first, place) {
            first = *other;
        }
    }
    first
}

/// Whether one of these may be placed for the operation at a place.
pub(crate) fn is_stood_for<O: Object>(
    log: &[Operation<O::What>],
    tried: &[usize],
    place: usize,
) -> bool
    ensures { IsTrue result → StandsOneFor O.after log.now tried.now place }
{
    for one in tried {
        if may_stand_for::<O>(log, *one, place) {
            return true;
        }
    }
    false
}

/// Whether an operation has to be tried: it isn't placed, it isn't idle, and none that was tried may be placed for it.
fn is_to_be_tried<O: Object>(
    log: &[Operation<O::What>],
    placed: &[usize],
    tried: &[usize],
    place: usize,
) -> bool
    ensures open { IsTrue result → is_in place placed.now ≡ false }
    ensures needless { IsFalse result → NeedNotBeTried O.after log.now placed.now tried.now place }
{
    !is_in(place, placed) && !is_idle::<O>(log, place) && !is_stood_for::<O>(log, tried, place)
}

/// All that a configuration leads to.
fn explore<O: Object>(
    alloc: Global,
    log: &[Operation<O::What>],
    under_way: &[usize],
    ending: usize,
    from: &Configuration<O>,
    sets: &mut Ending<O>,
) -> Result<(), AllocError>
    ensures { OnOk result (IsExplored (sure_at log.now) O.after log.now under_way.now ending from.now.state
        from.now.placed.items (length under_way.now)
        sets.old.waiting.items sets.old.kept.items sets.new.waiting.items sets.new.kept.items) }
{
    leave_out(alloc, log, ending, from, sets)?;
    let mut tried = Vec::new(alloc);
    for place in under_way {
        if is_to_be_tried::<O>(log, from.placed.as_slice(), tried.as_slice(), *place) {
            let first = first_for::<O>(log, under_way, from.placed.as_slice(), *place);
            try_place(alloc, log, ending, from, first, sets)?;
            tried.push(first)?;
        }
    }
    Ok(())
}

/// Whether an operation is sure to have taken effect, and leaves every state as it is.
pub(crate) fn is_sure_and_pure<O: Object>(log: &[Operation<O::What>], place: usize) -> bool
    ensures { IsTrue result → IsSureAndPure O.after (slice_get log.now place) }
{
    match log.get(place) {
        Some(op) => op.ends.is_some() && !op.maybe && O::is_pure(op.what),
        None => false,
    }
}

/// The first of those under way that is sure and pure and can be placed.
fn pure_next<O: Object>(
    log: &[Operation<O::What>],
    under_way: &[usize],
    from: &Configuration<O>,
) -> Option<usize>
    ensures { IfSome result (IsPureNext O.after log.now under_way.now from.now.state from.now.placed.items) }
{
    for place in under_way {
        if is_sure_and_pure::<O>(log, *place)
            && step_from(log, from.state, from.placed.as_slice(), *place).is_some()
        {
            return Some(*place);
        }
    }
    None
}

/// All that a configuration leads to. Where a pure operation can be placed, that is placed alone: whatever follows can
/// do without it.
fn visit<O: Object>(
    alloc: Global,
    log: &[Operation<O::What>],
    under_way: &[usize],
    ending: usize,
    from: &Configuration<O>,
    sets: &mut Ending<O>,
) -> Result<(), AllocError>
    ensures { OnOk result (IsVisited (sure_at log.now) O.after log.now under_way.now ending from.now.state
        from.now.placed.items sets.old.waiting.items sets.old.kept.items sets.new.waiting.items sets.new.kept.items) }
{
    match pure_next(log, under_way, from) {
        Some(place) => try_place(alloc, log, ending, from, place, sets),
        None => explore(alloc, log, under_way, ending, from, sets),
    }
}

/// A copy of the one at this place.
pub(crate) fn copied<O: Object>(
    alloc: Global,
    held: &[Configuration<O>],
    place: usize,
) -> Result<Configuration<O>, AllocError>
    requires { place < length held.now }
    ensures { IfOk result (IsCopyAt held.now place) }
{
    let one = &held[place];
    let placed = Vec::from_slice(alloc, one.placed.as_slice())?;
    Ok(Configuration::new(one.state, placed))
}

/// Explores what waits until that leads to nothing new; false where more are held than the budget.
pub(crate) fn close<O: Object>(
    alloc: Global,
    log: &[Operation<O::What>],
    under_way: &[usize],
    ending: usize,
    budget: usize,
    sets: &mut Ending<O>,
) -> Result<bool, AllocError>
    ensures { IfOk result (IsClosed (sure_at log.now) O.after log.now under_way.now ending budget
        sets.old.waiting.items sets.old.kept.items sets.new.waiting.items sets.new.kept.items) }
{
    let mut next: usize = 0;
    while next < sets.waiting.len() {
        if budget <= next {
            return Ok(false);
        }
        let from = copied(alloc, sets.waiting.as_slice(), next)?;
        visit(alloc, log, under_way, ending, &from, sets)?;
        next += 1;
    }
    Ok(sets.kept.len() <= budget)
}

/// Sorts one of the configurations at hand by whether it has placed the operation that ends.
fn sort<O: Object>(
    alloc: Global,
    log: &[Operation<O::What>],
    ending: usize,
    one: &Configuration<O>,
    sets: &mut Ending<O>,
) -> Result<(), AllocError>
    ensures { OnOk result (IsSorted (sure_at log.now) (is_in ending one.now.placed.items) ending one.now.state
        one.now.placed.items sets.old.waiting.items sets.old.kept.items sets.new.waiting.items sets.new.kept.items) }
{
    if is_in(ending, one.placed.as_slice()) {
        let behind = without(alloc, ending, one.placed.as_slice())?;
        add(log, &mut sets.kept, one.state, behind)
    } else {
        let placed = Vec::from_slice(alloc, one.placed.as_slice())?;
        add(log, &mut sets.waiting, one.state, placed)
    }
}

/// The configurations as an end begins.
pub(crate) fn start<O: Object>(
    alloc: Global,
    log: &[Operation<O::What>],
    ending: usize,
    configurations: &[Configuration<O>],
) -> Result<Ending<O>, AllocError>
    ensures { IfOk result (λ sets. AreStarted (sure_at log.now) O.after log.now ending (length configurations.now)
        configurations.now sets.waiting.items sets.kept.items) }
{
    let mut sets = Ending {
        waiting: Vec::new(alloc),
        kept: Vec::new(alloc),
    };
    for one in configurations {
        sort(alloc, log, ending, one, &mut sets)?;
    }
    Ok(sets)
}

/// The same configurations, those that have placed fewer first: only one that has placed fewer may cover another.
pub(crate) fn fewest_placed_first<O: Object>(kept: Vec<Configuration<O>>) -> Vec<Configuration<O>>
    ensures { IsPermutation kept.items result.items }
{
    let mut kept = kept;
    kept.sort_unstable_by_key(|one| one.placed.len());
    kept
}

/// The configurations behind the end of an operation; none where more than the budget are held.
pub(crate) fn pass<O: Object>(
    alloc: Global,
    log: &[Operation<O::What>],
    under_way: &[usize],
    ending: usize,
    configurations: &[Configuration<O>],
    budget: usize,
) -> Result<Option<Vec<Configuration<O>>>, AllocError>
    ensures many { IfOk result (λ r. IfNone r (AreAlwaysTooMany O.after log.now under_way.now ending configurations.now
        budget)) }
    ensures passed { IfOk result (λ r. IfSome r (λ v.
        IsPassed true O.after log.now under_way.now ending configurations.now v.items)) }
{
    let mut sets = start(alloc, log, ending, configurations)?;
    if close(alloc, log, under_way, ending, budget, &mut sets)? {
        let Ending { waiting: _, kept } = sets;
        Ok(Some(fewest_placed_first(kept)))
    } else {
        Ok(None)
    }
}
