//! Late groups: those with a refused write, and all that have to stand behind a late one.

ghost use Rattle.std.specs.Prelude.{◌≡◌, None, slice_get};
ghost use Rattle.history_search.specs.inner.Found.{cut_by};
ghost use Rattle.history_search.specs.inner.Groups.{spans_in};
ghost use Rattle.history_search.specs.inner.Ranks.{cut_after, earliest, ranks_in};

use crate::rank::{end, group_at, is_late, span_at};
use crate::span::{Marks, Span};
use history_core::Op;

/// The earliest end of the late groups, from the places that are sorted by rank, of groups of which no two cross.
pub(crate) fn late_end<R>(
    ops: &[Op<R>],
    groups: &[Option<usize>],
    spans: &[Marks],
    places: &[usize],
) -> Option<u64>
    ensures { result ≡ cut_by (spans_in ops.now spans.now) None
        (ranks_in ops.now groups.now (spans_in ops.now spans.now) None places.now) }
{
    let mut end = None;
    for place in places {
        let group = group_at(groups, *place);
        end = after(end, group, span_at(ops, spans, group));
    }
    end
}

/// The earliest end of the late groups, once one more group is known.
fn after(late: Option<u64>, group: usize, span: Option<Span>) -> Option<u64>
    ensures { result ≡ cut_after late group span }
{
    if is_late(late, group, span) {
        earliest(late, end(span))
    } else {
        late
    }
}

fn earliest(a: Option<u64>, b: Option<u64>) -> Option<u64>
    ensures { result ≡ earliest a b }
{
    match (a, b) {
        (None, end) => end,
        (Some(x), None) => Some(x),
        (Some(x), Some(y)) => Some(x.min(y)),
    }
}
