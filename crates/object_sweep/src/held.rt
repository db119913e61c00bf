//! Configurations that are held, of which none can do all that another can.
ghost use Rattle.std.specs.Prelude.{◌≡◌, ◌↔◌, ℕ, Bool, IsFalse, IsTrue, OnOk};
ghost use Rattle.object_sweep.specs.Marks.{joined, unsure_mark};
ghost use Rattle.object_sweep.specs.inner.Steps.{Covers, IsAdded, IsCovered, has_sure, sure_at};

use crate::configuration::Configuration;
use crate::places::{is_in, is_within, mark_of};
use object_core::{Object, Operation};
use std::alloc::AllocError;

/// Whether the operation at a place is sure to have taken effect.
fn is_sure<W>(log: &[Operation<W>], place: usize) -> bool
    ensures { result ≡ sure_at log.now place }
{
    match log.get(place) {
        Some(op) => op.ends.is_some() && !op.maybe,
        None => false,
    }
}

/// Whether of these places those that are sure are placed.
fn has_sure<W>(log: &[Operation<W>], placed: &[usize], others: &[usize]) -> bool
    ensures { result ≡ has_sure (sure_at log.now) placed.now others.now }
{
    others
        .iter()
        .all(|place| is_in(*place, placed) || !is_sure(log, *place))
}

/// Whether a configuration can do all that another can, which has this state and has placed these: what is unfinished,
/// or may have done nothing, need not be placed.
fn covers_placed<O: Object>(
    log: &[Operation<O::What>],
    one: &Configuration<O>,
    state: O,
    placed: &[usize],
) -> bool
    ensures { IsTrue result ↔ Covers (sure_at log.now) one.now state placed.now }
{
    one.state.is(state)
        && is_within(one.placed.as_slice(), placed)
        && has_sure(log, one.placed.as_slice(), placed)
}

/// The mark of a place, if the operation there isn't sure.
fn unsure_mark<W>(log: &[Operation<W>], place: usize) -> u64
    ensures { result ≡ unsure_mark (sure_at log.now) place }
{
    if is_sure(log, place) {
        0
    } else {
        mark_of(place)
    }
}

/// The marks of these places, but for those that are sure.
fn unsure_marks<W>(log: &[Operation<W>], places: &[usize]) -> u64
    ensures { result ≡ joined (unsure_mark (sure_at log.now)) places.now }
{
    let mut marks = 0;
    for place in places {
        marks |= unsure_mark(log, *place);
    }
    marks
}

/// Whether by its marks one configuration may be able to do all that another can, of which these are the unsure ones.
fn may_cover<O: Object>(one: &Configuration<O>, other: &Configuration<O>, unsure: u64) -> bool
    ensures { IsFalse result → (sure : ℕ → Bool) → unsure ≡ joined (unsure_mark sure) other.now.placed.items →
        ¬ Covers sure one.now other.now.state other.now.placed.items }
{
    one.marks & other.marks == one.marks && other.marks & (one.marks | unsure) == other.marks
}

/// Whether the first of two configurations can do all that the other can. Of most that can't the marks tell.
fn covers<O: Object>(
    log: &[Operation<O::What>],
    one: &Configuration<O>,
    other: &Configuration<O>,
    unsure: u64,
) -> bool
    requires { unsure ≡ joined (unsure_mark (sure_at log.now)) other.now.placed.items }
    ensures { IsTrue result ↔ Covers (sure_at log.now) one.now other.now.state other.now.placed.items }
{
    if !may_cover(one, other, unsure) {
        return false;
    }
    covers_placed(log, one, other.state, other.placed.as_slice())
}

/// Whether one of these can do all that another can.
fn is_covered<O: Object>(
    log: &[Operation<O::What>],
    held: &[Configuration<O>],
    sought: &Configuration<O>,
) -> bool
    ensures { IsTrue result ↔ IsCovered (sure_at log.now) held.now sought.now.state sought.now.placed.items }
{
    if held.is_empty() {
        return false;
    }
    let unsure = unsure_marks(log, sought.placed.as_slice());
    for one in held {
        if covers(log, one, sought, unsure) {
            return true;
        }
    }
    false
}

/// Adds one, unless one that is held can do all that it can.
pub(crate) fn add<O: Object>(
    log: &[Operation<O::What>],
    held: &mut Vec<Configuration<O>>,
    state: O,
    placed: Vec<usize>,
) -> Result<(), AllocError>
    ensures { OnOk result (IsAdded (sure_at log.now) held.old.items state placed.items held.new.items) }
{
    let one = Configuration::new(state, placed);
    if is_covered(log, held.as_slice(), &one) {
        return Ok(());
    }
    held.push(one)?;
    Ok(())
}
