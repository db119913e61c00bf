//! The calls of C on boards, over any record, family and handle.
ghost use Rattle.std.specs.Prelude.{◌≡◌, ◌≢◌, true, IfSome, IfNone};
ghost use Rattle.c_registers.specs.Handles.{holding};
ghost use Rattle.c_boards.specs.Places.{shown, IsBoardWrite, IsBoardRead, IsBoardReadSince};

use crate::mark::{Mark, is_below, mark_of};
use crate::posts::Posts;
use c_registers::{BUSY, DONE, Holds, OLDER, REFUSED, Wraps, lacks};
use matrix_core::Stamp;

/// Writes by the place in the struct.
#[inline]
fn post_inside<D: Wraps<S>, W: Copy, S: Posts<W>>(side: &mut D, item: &W) -> Option<Stamp>
    ensures posted { IfSome result (λ s. (q : S) × (side.new ≡ D.side q)
        × S.has_posted (D.inner side.old) q item.now s) }
    ensures refused { IfNone result ((q : S) × (side.new ≡ D.side q) × S.is_refused (D.inner side.old) q) }
{
    side.inside().post(item)
}

/// Reads by the place in the struct.
#[inline]
fn see_inside<D: Wraps<S>, W: Copy, S: Posts<W>>(side: &mut D, item: &mut W, stamp: &mut Mark)
    ensures { (q : S) × (side.new ≡ D.side q) × S.has_seen (D.inner side.old) q (shown stamp.new item.new) }
{
    let answer = side.inside().see();
    *item = answer.item;
    *stamp = mark_of(answer.stamp);
}

/// Writes the record by the place of a handle. Gives the stamp that the record has.
#[inline]
pub fn write_place<D: Wraps<S>, L: Holds<D>, W: Copy, S: Posts<W>>(
    code: u64,
    live: &mut u64,
    loose: &mut L,
    item: &W,
    stamp: &mut Mark,
) -> u32
    requires { live.old ≡ code → L.full loose.old ≡ true }
    ensures live { live.new ≡ live.old }
    ensures full { L.full loose.new ≡ L.full loose.old }
    ensures write { IsBoardWrite code D.side S.has_posted S.is_refused (holding live.old (L.side loose.old))
        (holding live.new (L.side loose.new)) item.now stamp.old stamp.new result }
{
    if *live != code {
        return lacks(*live);
    }
    *live = BUSY;
    let posted = post_inside::<D, W, S>(loose.reach(), item);
    *live = code;
    match posted {
        None => REFUSED,
        Some(given) => {
            *stamp = mark_of(given);
            DONE
        }
    }
}

/// Reads by the place of a handle. Gives the record with its stamp.
#[inline]
pub fn read_place<D: Wraps<S>, L: Holds<D>, W: Copy, S: Posts<W>>(
    code: u64,
    live: &mut u64,
    loose: &mut L,
    item: &mut W,
    stamp: &mut Mark,
) -> u32
    requires { live.old ≡ code → L.full loose.old ≡ true }
    ensures live { live.new ≡ live.old }
    ensures full { L.full loose.new ≡ L.full loose.old }
    ensures read { IsBoardRead code D.side S.has_seen (holding live.old (L.side loose.old))
        (holding live.new (L.side loose.new)) item.old item.new stamp.old stamp.new result }
{
    if *live != code {
        return lacks(*live);
    }
    *live = BUSY;
    see_inside::<D, W, S>(loose.reach(), item, stamp);
    *live = code;
    DONE
}

/// Reads, and says whether the answer is older than this stamp.
#[inline]
pub fn read_place_since<D: Wraps<S>, L: Holds<D>, W: Copy, S: Posts<W>>(
    code: u64,
    live: &mut u64,
    loose: &mut L,
    least: &Mark,
    item: &mut W,
    stamp: &mut Mark,
) -> u32
    requires { live.old ≡ code → L.full loose.old ≡ true }
    ensures live { live.new ≡ live.old }
    ensures full { L.full loose.new ≡ L.full loose.old }
    ensures read { IsBoardReadSince code D.side S.has_seen (holding live.old (L.side loose.old))
        (holding live.new (L.side loose.new)) least.now item.old item.new stamp.old stamp.new result }
{
    let status = read_place::<D, L, W, S>(code, live, loose, item, stamp);
    if status != DONE {
        return status;
    }
    if is_below(stamp, least) {
        return OLDER;
    }
    status
}
