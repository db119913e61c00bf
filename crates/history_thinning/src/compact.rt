//! Rows that no record needs any more are dropped.

ghost use Rattle.std.specs.Prelude.{◌≡◌, ◌<◌, ◌≤◌, ℕ, List, length};
ghost use Rattle.history_core.specs.declared.history.Op.{Op};
ghost use Rattle.history_thinning.specs.inner.Compacting.{has_role, IsShifted, moved_index, moved_roles, Settles};
ghost use Rattle.history_thinning.specs.inner.Compacting.{user_of};
ghost use Rattle.history_thinning.specs.inner.Kept.{AreThinned};

use crate::group::Roles;
use crate::rows::Rows;
use history_core::Op;

/// Drops each operation that is none of those that are kept of its record. The others stay in their order.
pub(crate) fn compact(rows: &mut Rows, roles: &mut Vec<Roles>)
    ensures { (log : List (Op ℕ)) → AreThinned log rows.old.ops.items rows.old.places.items roles.old.items →
        AreThinned log rows.new.ops.items rows.new.places.items roles.new.items }
{
    let mut used = 0;
    for from in 0..count_rows(rows) {
        used = settle(rows, roles, from, used);
    }
    rows.ops.truncate(used);
    rows.places.truncate(used);
}

/// How many rows there are.
fn count_rows(rows: &Rows) -> usize
    ensures ops { result ≤ length rows.now.ops.items }
    ensures places { result ≤ length rows.now.places.items }
    ensures all { length rows.now.places.items ≡ length rows.now.ops.items → result ≡ length rows.now.ops.items }
{
    rows.ops.len().min(rows.places.len())
}

/// Moves an operation down to an index, where it is of use. The number is that of the operations of use so far.
fn settle(rows: &mut Rows, roles: &mut Vec<Roles>, from: usize, to: usize) -> usize
    requires ops { from < length rows.old.ops.items }
    requires places { from < length rows.old.places.items }
    requires down { to ≤ from }
    ensures { Settles from to rows.old.ops.items rows.old.places.items roles.old.items
        rows.new.ops.items rows.new.places.items roles.new.items result }
{
    match user_of(rows.ops.as_slice(), roles.as_slice(), from) {
        Some(number) => {
            shift(rows, roles, number, from, to);
            to + 1
        }
        None => to,
    }
}

/// The number of the record for which the operation at this index is kept.
fn user_of(ops: &[Op<usize>], roles: &[Roles], index: usize) -> Option<usize>
    ensures { result ≡ user_of ops.now roles.now index }
{
    let number = ops.get(index)?.item?;
    let own = roles.get(number)?;
    if has_role(*own, index) {
        Some(number)
    } else {
        None
    }
}

fn has_role(roles: Roles, index: usize) -> bool
    ensures { result ≡ has_role roles index }
{
    roles.write as usize == index
        || roles.first as usize == index
        || roles.last as usize == index
        || roles.refused as usize == index
}

/// Moves an operation down to an index, and the roles of its record with it.
fn shift(rows: &mut Rows, roles: &mut Vec<Roles>, number: usize, from: usize, to: usize)
    requires ops { from < length rows.old.ops.items }
    requires places { from < length rows.old.places.items }
    requires number { number < length roles.old.items }
    requires down { to ≤ from }
    ensures { IsShifted number from to rows.old.ops.items rows.old.places.items roles.old.items
        rows.new.ops.items rows.new.places.items roles.new.items }
{
    rows.ops[to] = rows.ops[from];
    rows.places[to] = rows.places[from];
    roles[number] = moved(roles[number], from, to);
}

fn moved(roles: Roles, from: usize, to: usize) -> Roles
    requires { to ≤ from }
    ensures { result ≡ moved_roles from to roles }
{
    Roles {
        write: moved_index(roles.write, from, to),
        first: moved_index(roles.first, from, to),
        last: moved_index(roles.last, from, to),
        refused: moved_index(roles.refused, from, to),
    }
}

fn moved_index(index: u32, from: usize, to: usize) -> u32
    requires { to ≤ from }
    ensures { result ≡ moved_index from to index }
{
    if index as usize == from {
        to as u32
    } else {
        index
    }
}
