//! What is wrong with single operations: no source, one that comes too late, or the opening too late.

ghost use Rattle.std.specs.Prelude.{◌≡◌, ℕ, true, IfNone, IfSome, slice_get, Some};
ghost use Rattle.history_core.specs.declared.history.Op.{Op};
ghost use Rattle.history_coherence.specs.inner.Keys.{edge_at, HaveSources, is_ahead, is_back, is_source, lacks_source};
ghost use Rattle.history_coherence.specs.inner.Keys.{NoneAhead, NoneBack};

use crate::edge::{Edge, Tables, edge_at};
use crate::key::is_met;
use history_core::{Kind, Op};

/// The first finished operation whose record is neither the opening nor written.
pub(crate) fn first_unwritten(log: &[Op<usize>], written: &[bool]) -> Option<usize>
    ensures some { IfSome result (λ p. (o : Op ℕ) × (slice_get log.now p ≡ Some o)
        × (lacks_source written.now o ≡ true)) }
    ensures none { IfNone result (HaveSources log.now written.now) }
{
    for place in 0..log.len() {
        if lacks_source(written, &log[place]) {
            return Some(place);
        }
    }
    None
}

fn lacks_source(written: &[bool], op: &Op<usize>) -> bool
    ensures { result ≡ lacks_source written.now op.now }
{
    op.ends.is_some() && !is_source(written, op.item)
}

fn is_source(written: &[bool], item: Option<usize>) -> bool
    ensures { result ≡ is_source written.now item }
{
    match item {
        None => false,
        Some(record) => record == 0 || is_met(written, record),
    }
}

/// The first write of a record that its task had before.
pub(crate) fn first_ahead(log: &[Op<usize>], tables: &Tables) -> Option<usize>
    ensures some { IfSome result (λ q. (o : Op ℕ) × (slice_get log.now q ≡ Some o)
        × (is_ahead o (edge_at tables.now.keys.items tables.now.earlier.items q) ≡ true)) }
    ensures none { IfNone result (NoneAhead log.now tables.now) }
{
    for place in 0..log.len() {
        if is_ahead(&log[place], edge_at(tables, place)) {
            return Some(place);
        }
    }
    None
}

fn is_ahead(op: &Op<usize>, edge: Option<Edge>) -> bool
    ensures { result ≡ is_ahead op.now edge }
{
    match edge {
        None => false,
        Some(edge) => op.kind == Kind::Write && edge.from == edge.to,
    }
}

/// The first operation that has the opening where its task had another record before.
pub(crate) fn first_back(tables: &Tables, places: usize) -> Option<usize>
    ensures some { IfSome result
        (λ q. is_back (edge_at tables.now.keys.items tables.now.earlier.items q) ≡ true) }
    ensures none { IfNone result (NoneBack tables.now places) }
{
    for place in 0..places {
        if is_back(edge_at(tables, place)) {
            return Some(place);
        }
    }
    None
}

fn is_back(edge: Option<Edge>) -> bool
    ensures { result ≡ is_back edge }
{
    match edge {
        None => false,
        Some(edge) => edge.to == 0 && edge.from != 0,
    }
}
