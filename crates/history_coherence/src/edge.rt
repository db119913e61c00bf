//! How the records of a task's operations are tied.

ghost use Rattle.std.specs.Prelude.{◌≡◌};
ghost use Rattle.history_coherence.specs.inner.Keys.{edge_at, edge_to, number_at};

use crate::coherence::Link;

/// A task's operation and the one before it, and their records.
#[derive(Clone, Copy)]
pub struct Edge {
    pub link: Link,
    pub from: usize,
    pub to: usize,
}

/// What is known of the operations that have to stand, by place.
#[derive(Drop)]
pub struct Tables {
    /// Their records.
    pub keys: Vec<Option<usize>>,
    /// The place of the one of the same task before.
    pub earlier: Vec<Option<usize>>,
    /// The place of the one of the same record before.
    pub mates: Vec<Option<usize>>,
}

pub(crate) fn number_at(numbers: &[Option<usize>], place: usize) -> Option<usize>
    ensures { result ≡ number_at numbers.now place }
{
    *numbers.get(place)?
}

/// The edge from the operation before the one at this place.
pub(crate) fn edge_at(tables: &Tables, later: usize) -> Option<Edge>
    ensures { result ≡ edge_at tables.now.keys.items tables.now.earlier.items later }
{
    let to = number_at(tables.keys.as_slice(), later)?;
    let earlier = number_at(tables.earlier.as_slice(), later)?;
    edge_to(tables.keys.as_slice(), later, to, earlier)
}

fn edge_to(keys: &[Option<usize>], later: usize, to: usize, earlier: usize) -> Option<Edge>
    ensures { result ≡ edge_to keys.now later to earlier }
{
    let from = number_at(keys, earlier)?;
    Some(Edge {
        link: Link { earlier, later },
        from,
        to,
    })
}
