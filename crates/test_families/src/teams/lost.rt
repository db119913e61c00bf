//! What boards give of which a pass is lost.
use super::{A, B, C, OPENING};
use board_live::{BoardError, Posted, Refused};
use board_teams::Team;
use cell_contract::{Family, SoFar};
use history_core::Band;
use matrix_core::Stamp;
use std::alloc::Global;

fn stamp(tag: u64, writer: usize) -> Stamp {
    Stamp { tag, writer }
}

fn at(tag: u64, writer: usize, item: Band) -> Posted<Band> {
    Posted {
        stamp: stamp(tag, writer),
        item,
    }
}

/// Whether the write got this stamp.
fn got(answer: Result<Stamp, Refused<Band>>, tag: u64, writer: usize) -> bool {
    match answer {
        Ok(given) => given == stamp(tag, writer),
        Err(_) => false,
    }
}

/// A receipt is learnt after its record was overwritten, and then a pass is lost.
pub fn late_receipt<F: Family<Posted<Band>>>(alloc: Global) -> Result<bool, BoardError> {
    let Team { board, mut passes } = Team::<F>::new(alloc, 2, 9, OPENING)?;
    let Some(mut reader) = passes.pop() else {
        return Ok(false);
    };
    let Some(mut writer) = passes.pop() else {
        return Ok(false);
    };
    let first = got(board.write(&mut writer, A), 1, 0);
    let receipt = board.tell(&mut writer);
    let second = got(board.write(&mut writer, B), 2, 0);
    let before = board.read(&mut reader);
    let told = receipt.told();
    drop(writer);
    board.learn(&mut reader, receipt);
    let after = board.read(&mut reader);
    let third = got(board.write(&mut reader, C), 3, 1);
    let seen = (before == at(2, 0, B)) & (told == at(1, 0, A)) & (after == at(2, 0, B));
    Ok(first & second & third & seen)
}

/// Process 1 writes, and its pass is lost. The other pass shows all calls so far, and goes on as before.
pub fn lost_pass<F: SoFar<Posted<Band>>>(alloc: Global) -> Result<bool, BoardError> {
    let Team { board, mut passes } = Team::<F>::new(alloc, 2, 9, OPENING)?;
    let Some(mut lost) = passes.pop() else {
        return Ok(false);
    };
    let Some(mut kept) = passes.pop() else {
        return Ok(false);
    };
    let _ = board.write(&mut lost, B);
    drop(lost);
    board.so_far_with(&mut kept);
    let first = board.read(&mut kept);
    let second = got(board.write(&mut kept, C), 2, 0);
    let third = board.read(&mut kept);
    Ok(second & (first == at(1, 1, B)) & (third == at(2, 0, C)))
}
