//! What is kept of one record.

ghost use Rattle.std.specs.Prelude.{◌≡◌, if◌then◌else◌};
ghost use Rattle.history_thinning.specs.inner.Entering.{begins_last, end_at, ends_first, is_refused};
ghost use Rattle.history_thinning.specs.inner.Entering.{joined_roles, start_at};
ghost use Rattle.history_core.specs.Orders.{is_write};

use history_core::{Kind, Op};

/// An operation and its place in the log.
#[derive(Clone, Copy)]
pub struct Placed {
    pub op: Op<usize>,
    pub place: usize,
}

/// Which of the kept operations are kept of one record, by their indices. `NOWHERE` stands for none.
#[derive(Clone, Copy)]
pub struct Roles {
    /// Its write.
    pub write: u32,
    /// The first to end of those that are finished.
    pub first: u32,
    /// The last to begin of those that are finished or the write.
    pub last: u32,
    /// A finished refused write.
    pub refused: u32,
}

/// No operation has this index.
pub(crate) const NOWHERE: u32 = u32::MAX;

/// The roles of a record of which no operation is kept.
pub(crate) const EMPTY: Roles = Roles {
    write: NOWHERE,
    first: NOWHERE,
    last: NOWHERE,
    refused: NOWHERE,
};

/// The roles with one more operation of the record, which is to have this index.
pub(crate) fn joined(kept: &[Op<usize>], roles: Roles, op: &Op<usize>, next: u32) -> Roles
    ensures { result ≡ joined_roles kept.now roles op.now next }
{
    let first = ends_first(op.ends, end_at(kept, roles.first));
    let last = begins_last(op.starts, start_at(kept, roles.last));
    Roles {
        write: taken(is_write(op.kind), next, roles.write),
        first: taken(first, next, roles.first),
        last: taken(last, next, roles.last),
        refused: taken(is_refused(op.kind), next, roles.refused),
    }
}

fn taken(takes: bool, next: u32, kept: u32) -> u32
    ensures { result ≡ (if takes then next else kept) }
{
    if takes { next } else { kept }
}

fn is_write(kind: Kind) -> bool
    ensures { result ≡ is_write kind }
{
    match kind {
        Kind::Write => true,
        Kind::Read | Kind::Refused => false,
    }
}

fn is_refused(kind: Kind) -> bool
    ensures { result ≡ is_refused kind }
{
    match kind {
        Kind::Refused => true,
        Kind::Write | Kind::Read => false,
    }
}

/// Whether an operation with this end ends before the kept one, which ends then.
fn ends_first(ends: Option<u64>, kept: Option<u64>) -> bool
    ensures { result ≡ ends_first ends kept }
{
    match ends {
        None => false,
        Some(end) => match kept {
            None => true,
            Some(least) => end < least,
        },
    }
}

/// Whether an operation begins behind the kept one, which begins then.
fn begins_last(starts: u64, kept: Option<u64>) -> bool
    ensures { result ≡ begins_last starts kept }
{
    match kept {
        None => true,
        Some(latest) => latest < starts,
    }
}

fn end_at(kept: &[Op<usize>], index: u32) -> Option<u64>
    ensures { result ≡ end_at kept.now index }
{
    match kept.get(index as usize) {
        Some(op) => op.ends,
        None => None,
    }
}

fn start_at(kept: &[Op<usize>], index: u32) -> Option<u64>
    ensures { result ≡ start_at kept.now index }
{
    match kept.get(index as usize) {
        Some(op) => Some(op.starts),
        None => None,
    }
}
