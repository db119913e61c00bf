//! Making a board for C: a place into each of its handles.
ghost use Rattle.std.specs.Prelude.{◌≡◌, ◌≢◌, true, false, IfOk, IfSome, length};
ghost use Rattle.c_boards.specs.Opens.{AreBoxed, OpensBoxes};
ghost use Rattle.c_boards.specs.Places.{NoneLive, SomeLive, HaveBoxed, IsBoardMake};

use crate::posts::Posts;
use board_live::BoardError;
use c_registers::{DONE, Hand, IN_USE, LIMIT, NO_MEMORY, PROCESSES, Wraps};
use std::alloc::{AllocError, Global};

/// Whether the handle has a side, or a call on it was cut off.
fn is_live<D, H: Hand<D>>(handle: &H) -> bool
    ensures dead { result ≡ false → H.live handle.now ≡ 0 }
    ensures live { result ≡ true → H.live handle.now ≢ 0 }
{
    handle.live() != 0
}

/// Whether one of the handles has a side.
fn any_live<D, H: Hand<D>>(handles: &[H]) -> bool
    ensures none { result ≡ false → NoneLive H.live H.side handles.now }
    ensures some { result ≡ true → SomeLive H.live H.side handles.now }
{
    for k in 0..handles.len() {
        if is_live::<D, H>(&handles[k]) {
            return true;
        }
    }
    false
}

/// Puts each side into its handle.
fn put_all<D: Drop, H: Hand<D>>(handles: &mut [H], sides: Vec<Box<D>>)
    requires none { NoneLive H.live H.side handles.old }
    requires counts { length handles.old ≡ length sides.items }
    ensures { HaveBoxed H.live H.side H.CODE sides.items handles.new }
{
    let mut sides = sides;
    for _ in 0..handles.len() {
        let Some(side) = sides.pop() else {
            unreachable!();
        };
        let k = sides.len();
        handles[k].put(side);
    }
}

/// The place in a box, where there is memory.
fn boxed_place<D: Wraps<S>, S: Drop>(alloc: Global, place: S) -> Option<Box<D>>
    ensures { IfSome result (λ b. b.value ≡ D.side place) }
{
    Box::new(alloc, D::whole(place)).ok()
}

/// Each place in a box, where there is memory.
fn all_boxed<D: Wraps<S>, S: Drop>(alloc: Global, places: Vec<S>) -> Result<Vec<Box<D>>, AllocError>
    ensures { IfOk result (λ v. AreBoxed D.side places.items v.items) }
{
    let mut places = places;
    let mut sides = Vec::with_capacity(alloc, places.len())?;
    for _ in 0..places.len() {
        let Some(place) = places.pop() else {
            unreachable!();
        };
        let Some(side) = boxed_place::<D, S>(alloc, place) else {
            return Err(AllocError);
        };
        sides.push(side)?;
    }
    sides.reverse();
    Ok(sides)
}

/// The places of a new board, each in a box.
fn open_boxed<D: Wraps<S>, W: Copy, S: Posts<W>>(
    alloc: Global,
    n: usize,
    limit: u64,
    first: W,
) -> Result<Vec<Box<D>>, BoardError>
    ensures { OpensBoxes D.side S.is_made n limit first result }
{
    let places = S::open(alloc, n, limit, first)?;
    match all_boxed::<D, S>(alloc, places) {
        Ok(sides) => Ok(sides),
        Err(_) => Err(BoardError::NoMemory),
    }
}

/// Makes a board with a process for each handle, and puts the places into them. Process k calls with handle k.
pub fn make_places<D: Wraps<S>, H: Hand<D>, W: Copy, S: Posts<W>>(
    alloc: Global,
    first: &W,
    limit: u64,
    handles: &mut [H],
) -> u32
    ensures { IsBoardMake H.live H.side H.CODE D.side S.is_made limit handles.old handles.new first.now result }
{
    if any_live(handles) {
        return IN_USE;
    }
    match open_boxed::<D, W, S>(alloc, handles.len(), limit, *first) {
        Ok(sides) => {
            put_all(handles, sides);
            DONE
        }
        Err(BoardError::Processes) => PROCESSES,
        Err(BoardError::Limit) => LIMIT,
        Err(BoardError::NoMemory) => NO_MEMORY,
        Err(BoardError::Opening) => NO_MEMORY,
    }
}
