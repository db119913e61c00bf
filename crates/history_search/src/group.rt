//! Groups: the number of an operation's group is 0 for the opening's, and for that of a write one
//! more than the write's place.

ghost use Rattle.std.specs.Prelude.{◌≡◌, ◌+◌, ◌<◌, ◌^◌, ◌↔◌, ℕ, false, length, IfErr, IfNone, IfOk};
ghost use Rattle.std.specs.Prelude.{IfSome, IsSome, IsTrue, OnOk, None};
ghost use Rattle.std.specs.Prelude.{Some};
ghost use Rattle.std.specs.BTreeMap.{get, Updates};
ghost use Rattle.history_search.specs.inner.Groups.{AreGroups, group_in, HaveGroups, IsUngrouped, IsWriteFault};
ghost use Rattle.history_search.specs.inner.Groups.{KnowsWrites, written_by};
ghost use Rattle.history_core.specs.Searches.{IsGroupFault, WritesOnce};

use history_core::{Kind, Op, SearchError};
use std::alloc::Global;
use std::collections::BTreeMap;

/// The group of each operation that counts and has one.
pub(crate) fn group_ops<R: Copy + Ord>(
    alloc: Global,
    opening: R,
    ops: &[Op<R>],
) -> Result<Vec<Option<usize>>, SearchError>
    ensures groups { IfOk result (λ v. AreGroups (λ x y. IsTrue (R.eq x y)) opening ops.now v.items) }
    ensures once { IfOk result (λ v. (n : ℕ) → WritesOnce (λ x y. IsTrue (R.eq x y)) opening ops.now n) }
    ensures fault { IfErr result (IsGroupFault (λ x y. IsTrue (R.eq x y)) opening ops.now) }
{
    let writes = group_writes(alloc, opening, ops)?;
    let mut groups = Vec::new(alloc);
    for op in ops {
        let group = group_of(opening, &writes, op);
        match groups.push(group) {
            Ok(()) => {}
            Err(_) => return Err(SearchError::NoMemory),
        }
    }
    Ok(groups)
}

/// The group of each record that is written.
fn group_writes<R: Copy + Ord>(
    alloc: Global,
    opening: R,
    ops: &[Op<R>],
) -> Result<BTreeMap<R, usize>, SearchError>
    ensures known { IfOk result (λ m. KnowsWrites R.cmp ops.now (length ops.now) m) }
    ensures once { IfOk result (λ m. WritesOnce (λ x y. IsTrue (R.eq x y)) opening ops.now (length ops.now)) }
    ensures fault { IfErr result (IsGroupFault (λ x y. IsTrue (R.eq x y)) opening ops.now) }
{
    let mut writes = BTreeMap::new(alloc);
    for place in 0..ops.len() {
        match written_by(&ops[place]) {
            Some(written) => match add_write(&mut writes, opening, written, place) {
                Ok(()) => {}
                Err(error) => return Err(error),
            },
            None => {}
        }
    }
    Ok(writes)
}

/// The record that an operation writes.
fn written_by<R: Copy>(op: &Op<R>) -> Option<R>
    ensures { result ≡ written_by op.now }
{
    match op.kind {
        Kind::Write => op.item,
        Kind::Read | Kind::Refused => None,
    }
}

/// Adds a write of a record that is neither the opening nor written before.
fn add_write<R: Copy + Ord>(
    writes: &mut BTreeMap<R, usize>,
    opening: R,
    written: R,
    place: usize,
) -> Result<(), SearchError>
    requires { place + 1 < 2 ^ 64 }
    ensures added { OnOk result ((R.eq written opening ≡ false) × (get R.cmp writes.old written ≡ None)
        × Updates R.cmp writes.old writes.new written (Some (place + 1))) }
    ensures fault { IfErr result (IsWriteFault R.eq R.cmp opening writes.old written place) }
{
    if written == opening {
        return Err(SearchError::WritesOpening { place });
    }
    match writes.insert(written, place + 1) {
        Ok(None) => Ok(()),
        Ok(Some(group)) => Err(SearchError::WritesTwice {
            first: group.saturating_sub(1),
            second: place,
        }),
        Err(_) => Err(SearchError::NoMemory),
    }
}

/// The group of an operation, if it is finished or a write.
fn group_of<R: Copy + Ord>(opening: R, writes: &BTreeMap<R, usize>, op: &Op<R>) -> Option<usize>
    ensures { result ≡ group_in R.eq R.cmp opening writes.now op.now }
{
    if op.ends.is_none() && op.kind != Kind::Write {
        return None;
    }
    let record = op.item?;
    if record == opening {
        return Some(0);
    }
    writes.get(&record).copied()
}

/// The first finished operation without a group.
pub(crate) fn first_ungrouped<R>(ops: &[Op<R>], groups: &[Option<usize>]) -> Option<usize>
    requires { length groups.now ≡ length ops.now }
    ensures some { IfSome result (λ p. IsUngrouped ops.now groups.now p) }
    ensures none { IfNone result (HaveGroups ops.now groups.now (length ops.now)) }
{
    for place in 0..ops.len() {
        if ops[place].ends.is_some() && groups[place].is_none() {
            return Some(place);
        }
    }
    None
}
