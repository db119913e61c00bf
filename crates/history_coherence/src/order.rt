//! The walk over a log that has been checked, and what comes of it.

ghost use Rattle.std.specs.Prelude.{◌≡◌, ◌+◌, IfOk, length, [], ℕ, ◌<◌, Some, slice_get};
ghost use Rattle.history_coherence.specs.inner.Keys.{AreLast, IsTabled, NoneAhead, NoneBack, NumbersUpTo};
ghost use Rattle.history_coherence.specs.inner.Ranks.{IsRanked};
ghost use Rattle.history_coherence.specs.inner.Sortings.{IsSorting};
ghost use Rattle.history_coherence.specs.inner.Walks.{IsWalking};

use crate::coherence::Link;
use crate::edge::Tables;
use crate::key::blank;
use crate::previous::last_places;
use crate::rank::{places, rank_log};
use crate::trail::circle_at;
use crate::walk::{Mark, Walk, place_all};
use history_core::Op;
use std::alloc::{AllocError, Global};

/// An order of the operations, or links in a circle.
#[derive(Drop)]
pub(crate) enum Sorting {
    Order(Vec<usize>),
    Circle(Vec<Link>),
}

pub(crate) fn sort_log(
    alloc: Global,
    log: &[Op<usize>],
    tables: &Tables,
    greatest: usize,
) -> Result<Sorting, AllocError>
    requires within { NumbersUpTo tables.now.keys.items greatest }
    requires tabled { IsTabled log.now tables.now }
    requires back { NoneBack tables.now (length tables.now.keys.items) }
    ensures { IfOk result (IsSorting log.now tables.now) }
{
    let mut walk = open_walk(alloc, tables, greatest)?;
    match place_all(tables, &mut walk)? {
        Some(met) => Ok(Sorting::Circle(circle_at(alloc, tables, &walk, met)?)),
        None => {
            let ranks = rank_log(alloc, log, tables.keys.as_slice(), walk.marks.as_slice())?;
            Ok(Sorting::Order(places(alloc, ranks.as_slice())?))
        }
    }
}

/// The walk in which the opening alone is placed.
fn open_walk(alloc: Global, tables: &Tables, greatest: usize) -> Result<Walk, AllocError>
    requires within { NumbersUpTo tables.now.keys.items greatest }
    requires back { NoneBack tables.now (length tables.now.keys.items) }
    ensures walking { IfOk result (IsWalking tables.now) }
    ensures empty { IfOk result (λ walk. walk.path.items ≡ []) }
{
    let mut marks = blank(alloc, Mark::New, greatest)?;
    marks[0] = Mark::Placed(0);
    let mut placed = Vec::new(alloc);
    placed.push(0)?;
    Ok(Walk {
        marks,
        cursors: last_places(alloc, tables.keys.as_slice(), greatest)?,
        path: Vec::new(alloc),
        placed,
    })
}
