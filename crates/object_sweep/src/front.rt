//! What the sweep holds behind some of the events.

ghost use Rattle.std.specs.Prelude.{◌≡◌, IfOk, length, true};
ghost use Rattle.object_sweep.specs.inner.Beams.{AreCopies, IsSameFront};
ghost use Rattle.object_sweep.specs.inner.Events.{IsOpened};

use crate::configuration::Configuration;
use crate::ending::copied;
use object_core::Object;
use std::alloc::{AllocError, Global};

#[derive(Drop)]
pub(crate) struct Front<O> {
    pub under_way: Vec<usize>,
    pub configurations: Vec<Configuration<O>>,
    /// Whether no configuration was left out so far.
    pub whole: bool,
}

/// A front, and the number of events that it is behind.
#[derive(Drop)]
pub(crate) struct Mark<O> {
    pub done: usize,
    pub front: Front<O>,
}

/// Nothing is under way, and the object is as it was opened.
pub(crate) fn first_front<O: Object>(alloc: Global, opening: O) -> Result<Front<O>, AllocError>
    ensures { IfOk result (λ f. (f.whole ≡ true) × IsOpened opening f.under_way.items f.configurations.items) }
{
    let mut configurations = Vec::with_capacity(alloc, 1)?;
    configurations.push(Configuration::new(opening, Vec::new(alloc)))?;
    Ok(Front {
        under_way: Vec::new(alloc),
        configurations,
        whole: true,
    })
}

/// Copies of these, in their order.
fn copies<O: Object>(
    alloc: Global,
    held: &[Configuration<O>],
) -> Result<Vec<Configuration<O>>, AllocError>
    ensures { IfOk result (λ v. AreCopies (length held.now) held.now v.items) }
{
    let mut found = Vec::with_capacity(alloc, held.len())?;
    for place in 0..held.len() {
        found.push(copied(alloc, held, place)?)?;
    }
    Ok(found)
}

/// A copy of a front.
pub(crate) fn copied_front<O: Object>(
    alloc: Global,
    front: &Front<O>,
) -> Result<Front<O>, AllocError>
    ensures { IfOk result (IsSameFront front.now) }
{
    let under_way = Vec::from_slice(alloc, front.under_way.as_slice())?;
    let configurations = copies(alloc, front.configurations.as_slice())?;
    Ok(Front {
        under_way,
        configurations,
        whole: front.whole,
    })
}
