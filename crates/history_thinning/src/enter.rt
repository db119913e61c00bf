//! One more operation: whether it may be entered, and its row and roles with it.

ghost use Rattle.std.specs.Prelude.{◌≡◌, ◌<◌, ◌++◌, ◌∷◌, [], length, get_or, set, IfOk, OnErr, OnOk};
ghost use Rattle.history_thinning.specs.inner.Entering.{counted_number, empty_roles, Grows, is_backwards};
ghost use Rattle.history_thinning.specs.inner.Entering.{joined_roles, row_fault, row_write_fault, row_write_place};
ghost use Rattle.history_thinning.specs.inner.Entering.{written_number};
ghost use Rattle.history_thinning.specs.inner.Kept.{nowhere};

use crate::group::{EMPTY, NOWHERE, Placed, Roles, joined};
use crate::rows::{Rows, push};
use history_core::{Kind, Op, SearchError};
use std::alloc::AllocError;

/// Why an operation at this place isn't entered, if so.
pub(crate) fn entry_fault(
    places: &[usize],
    roles: &[Roles],
    op: &Op<usize>,
    place: usize,
) -> Option<SearchError>
    ensures { result ≡ row_fault places.now roles.now op.now place }
{
    if is_backwards(op.starts, op.ends) {
        return Some(SearchError::Backwards { place });
    }
    match written_number(op) {
        Some(number) => write_fault(places, roles, number, place),
        None => None,
    }
}

/// Whether an operation ends before it begins.
fn is_backwards(starts: u64, ends: Option<u64>) -> bool
    ensures { result ≡ is_backwards starts ends }
{
    match ends {
        Some(end) => end < starts,
        None => false,
    }
}

/// The record that an operation writes.
fn written_number(op: &Op<usize>) -> Option<usize>
    ensures { result ≡ written_number op.now.kind op.now.item }
{
    match op.kind {
        Kind::Write => op.item,
        Kind::Read | Kind::Refused => None,
    }
}

fn write_fault(
    places: &[usize],
    roles: &[Roles],
    number: usize,
    place: usize,
) -> Option<SearchError>
    ensures { result ≡ row_write_fault places.now roles.now number place }
{
    if number == 0 {
        return Some(SearchError::WritesOpening { place });
    }
    match write_place(places, roles, number) {
        Some(first) => Some(SearchError::WritesTwice {
            first,
            second: place,
        }),
        None => None,
    }
}

/// The place of the write of a record.
fn write_place(places: &[usize], roles: &[Roles], number: usize) -> Option<usize>
    ensures { result ≡ row_write_place places.now roles.now number }
{
    match roles.get(number) {
        Some(own) => places.get(own.write as usize).copied(),
        None => None,
    }
}

/// The record of an operation that counts: one that is finished, or a write.
pub(crate) fn counted_number(op: &Op<usize>) -> Option<usize>
    ensures { result ≡ counted_number op.now }
{
    if op.ends.is_some() || op.kind == Kind::Write {
        op.item
    } else {
        None
    }
}

/// Empty roles up to those of this record.
pub(crate) fn make_room(roles: &mut Vec<Roles>, number: usize) -> Result<(), AllocError>
    ensures grown { OnOk result (Grows empty_roles roles.old.items roles.new.items) }
    ensures room { OnOk result (number < length roles.new.items) }
    ensures failed { OnErr result (Grows empty_roles roles.old.items roles.new.items) }
{
    if number < roles.len() {
        return Ok(());
    }
    match number.checked_add(1) {
        Some(count) => roles.resize(count, EMPTY),
        None => Err(AllocError),
    }
}

/// One more operation, with what it is of its record. Where there is no memory for it, all stays as it is.
pub(crate) fn join(
    rows: &mut Rows,
    roles: &mut Vec<Roles>,
    number: usize,
    placed: Placed,
) -> Result<(), AllocError>
    requires { number < length roles.old.items }
    ensures few { OnOk result (length rows.old.ops.items < nowhere) }
    ensures ops { OnOk result (rows.new.ops.items ≡ rows.old.ops.items ++ placed.op ∷ []) }
    ensures places { OnOk result (rows.new.places.items ≡ rows.old.places.items ++ placed.place ∷ []) }
    ensures roles { OnOk result (roles.new.items ≡ set roles.old.items number
        (joined_roles rows.old.ops.items (get_or roles.old.items number empty_roles) placed.op
        (length rows.old.ops.items))) }
    ensures same_ops { OnErr result (rows.new.ops.items ≡ rows.old.ops.items) }
    ensures same_places { OnErr result (rows.new.places.items ≡ rows.old.places.items) }
    ensures same_roles { OnErr result (roles.new.items ≡ roles.old.items) }
{
    let next = next_index(rows.ops.len())?;
    let own = joined(rows.ops.as_slice(), roles[number], &placed.op, next);
    push(rows, placed.op, placed.place)?;
    roles[number] = own;
    Ok(())
}

/// The index of one more. There is no memory for more operations than there are indices: each has some fifty bytes.
fn next_index(count: usize) -> Result<u32, AllocError>
    ensures { IfOk result (λ next. (next ≡ count) × (count < nowhere)) }
{
    match u32::try_from(count) {
        Ok(next) => if next < NOWHERE {
            Ok(next)
        } else {
            Err(AllocError)
        },
        Err(_) => Err(AllocError),
    }
}
