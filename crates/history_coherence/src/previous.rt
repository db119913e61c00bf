//! The last place before a place that has the same number.

ghost use Rattle.std.specs.Prelude.{◌≡◌, ◌+◌, ℕ, IfOk, length};
ghost use Rattle.history_coherence.specs.inner.Keys.{AreLast, ArePrevious, NumbersUpTo};

use crate::key::blank;
use std::alloc::{AllocError, Global};
use std::collections::BTreeMap;

/// Of each place with a number the last place before it that has the same.
pub(crate) fn previous_places(
    alloc: Global,
    numbers: &[Option<usize>],
) -> Result<Vec<Option<usize>>, AllocError>
    ensures { IfOk result (λ v. ArePrevious numbers.now (length numbers.now) v.items) }
{
    let mut last = BTreeMap::new(alloc);
    let mut previous = Vec::new(alloc);
    for place in 0..numbers.len() {
        let before = match numbers[place] {
            Some(number) => last.insert(number, place)?,
            None => None,
        };
        previous.push(before)?;
    }
    Ok(previous)
}

/// Of each number the last place that has it.
pub(crate) fn last_places(
    alloc: Global,
    numbers: &[Option<usize>],
    greatest: usize,
) -> Result<Vec<Option<usize>>, AllocError>
    requires { NumbersUpTo numbers.now greatest }
    ensures last { IfOk result (λ v. AreLast numbers.now (length numbers.now) v.items) }
    ensures long { IfOk result (λ v. length v.items ≡ greatest + 1) }
{
    let mut last = blank(alloc, None, greatest)?;
    for place in 0..numbers.len() {
        if let Some(number) = numbers[place] {
            last[number] = Some(place);
        }
    }
    Ok(last)
}
