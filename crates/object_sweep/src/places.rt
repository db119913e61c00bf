//! Lists of places.

ghost use Rattle.std.specs.Prelude.{◌≡◌, ◌++◌, ◌∷◌, [], IfOk};
ghost use Rattle.object_sweep.specs.Marks.{mark_of, marks_of};
ghost use Rattle.object_sweep.specs.Reached.{is_in, is_within, without};

use std::alloc::{AllocError, Global};

pub(crate) fn is_in(place: usize, places: &[usize]) -> bool
    ensures { result ≡ is_in place places.now }
{
    places.contains(&place)
}

/// Whether all of these are among the others.
pub(crate) fn is_within(places: &[usize], others: &[usize]) -> bool
    ensures { result ≡ is_within places.now others.now }
{
    places.iter().all(|place| is_in(*place, others))
}

/// One more place behind them.
pub(crate) fn with(alloc: Global, places: &[usize], place: usize) -> Result<Vec<usize>, AllocError>
    ensures { IfOk result (λ v. v.items ≡ places.now ++ place ∷ []) }
{
    let mut more = Vec::with_capacity(alloc, places.len().saturating_add(1))?;
    more.extend_from_slice(places)?;
    more.push(place)?;
    Ok(more)
}

/// Takes this one out.
pub(crate) fn remove(place: usize, places: &mut Vec<usize>)
    ensures { places.new.items ≡ without place places.old.items }
{
    places.retain(|other| *other != place);
}

/// All but this one.
pub(crate) fn without(
    alloc: Global,
    place: usize,
    places: &[usize],
) -> Result<Vec<usize>, AllocError>
    ensures { IfOk result (λ v. v.items ≡ without place places.now) }
{
    let mut left = Vec::from_slice(alloc, places)?;
    remove(place, &mut left);
    Ok(left)
}

pub(crate) fn mark_of(place: usize) -> u64
    ensures { result ≡ mark_of place }
{
    1 << (place % 64)
}

/// The marks of all of these.
pub(crate) fn marks_of(places: &[usize]) -> u64
    ensures { result ≡ marks_of places.now }
{
    let mut marks = 0;
    for place in places {
        marks |= mark_of(*place);
    }
    marks
}
