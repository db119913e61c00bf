//! From one board to the next, and a board of two.
use crate::calls::steer;
use crate::control::Control;
use crate::receipts::ends_in_order;
use crate::turns::{STEERING, is_refused, share};
use board_live::{Board, BoardError, Posted};
use cell_contract::Family;
use std::alloc::{AllocError, Global};

/// What the steering task gave on a first board and on the one after it, where the first ended as it should.
pub fn two_boards<F: Family<Posted<Control>>>(
    alloc: Global,
) -> Result<Option<[u64; 2]>, BoardError> {
    let opening = Control {
        low: 0,
        reading: 0,
        high: 0,
    };
    let (board, mut passes) = Board::<Control, F>::new(alloc, 3, 2, opening)?;
    let Ok(first) = share(&board, &mut passes) else {
        return Ok(None);
    };
    if !is_refused(&board, &mut passes) {
        return Ok(None);
    }
    let last = board.finish(passes);
    let (next, mut others) = Board::<Control, F>::renew(alloc, 3, 2, last)?;
    let second = steer(&next, &mut others[STEERING]);
    Ok(Some([first, second]))
}

/// The last record of a board of two processes, of which one has written, told and ended;
/// none where its tags have ended.
pub fn last_of_two<F: Family<Posted<Control>>>(
    alloc: Global,
) -> Result<Option<Posted<Control>>, AllocError> {
    let opening = Control {
        low: 0,
        reading: 0,
        high: 0,
    };
    let Ok((board, mut passes)) = Board::<Control, F>::new(alloc, 2, 9, opening) else {
        return Err(AllocError);
    };
    let Some(reader) = passes.pop() else {
        return Err(AllocError);
    };
    let Some(writer) = passes.pop() else {
        return Err(AllocError);
    };
    let item = Control {
        low: 10,
        reading: 15,
        high: 20,
    };
    ends_in_order(alloc, board, writer, reader, item)
}
