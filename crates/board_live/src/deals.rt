//! Making a board.
ghost use Rattle.std.specs.Prelude.{◌≡◌, ◌<◌, ◌≤◌, [], IfOk, IsTrue, vec_capacity};
ghost use Rattle.matrix_core.specs.Stamps.{first_stamp};
ghost use Rattle.board_live.specs.Deals.{IsNew, OpensWith};

use crate::board::{Board, Pass};
use crate::record::{Posted, RecordLaw};
use cell_contract::Family;
use matrix_core::Stamp;
use std::alloc::{AllocError, Global};

/// Why no board was made. They are tested in this order.
#[derive(Clone, Copy, Debug, PartialEq, Eq)]
pub enum BoardError {
    /// There are 2 to 16 processes.
    Processes,
    /// A limit is at least 1 and below the greatest number.
    Limit,
    /// The opening breaks its law.
    Opening,
    NoMemory,
}

/// Room for the seats of all passes, which the last process gets. Another one gets room for one: a list without any
/// would keep an address of the stack that other processes may see.
fn room<S>(alloc: Global, last: bool, n: usize) -> Result<Vec<S>, AllocError>
    ensures { IfOk result (λ room. (IsTrue last → n ≤ vec_capacity room) × (room.items ≡ [])) }
{
    Vec::with_capacity(alloc, if last { n } else { 1 })
}

/// A board with its passes.
fn deal<V: RecordLaw, F: Family<Posted<V>>>(
    alloc: Global,
    n: usize,
    limit: u64,
    first: Posted<V>,
) -> Result<(Board<V, F>, Vec<Pass<V, F>>), AllocError>
    requires lawful { IsTrue (V.obeys first.item) }
    requires opens { first.stamp ≡ first_stamp }
    requires processes { (2 ≤ n) × (n ≤ 16) }
    requires within { (1 ≤ limit) × (limit < 18446744073709551615) }
    ensures { IfOk result (λ r. IsNew ⟦<F as Family<Posted<V>>>⟧ V.obeys n limit first r.0 r.1.items) }
{
    let mut passes = Vec::with_capacity(alloc, n)?;
    let (family, seats) = F::make(alloc, n, limit, first)?;
    let mut seats = seats;
    for _ in 0..n {
        let Some(seat) = seats.pop() else {
            unreachable!();
        };
        let process = seats.len();
        passes.push_reserved(Pass {
            process,
            own: first,
            told: true,
            seat,
            room: room(alloc, passes.is_empty(), n)?,
        });
    }
    passes.reverse();
    let board = Board {
        family,
        processes: n,
        limit,
        first,
    };
    Ok((board, passes))
}

impl<V: RecordLaw, F: Family<Posted<V>>> Board<V, F> {
    /// A board of so many processes, with their passes in rising order. Each process's own record
    /// is the opening at stamp 0.0.
    pub fn new(
        alloc: Global,
        n: usize,
        limit: u64,
        opening: V,
    ) -> Result<(Board<V, F>, Vec<Pass<V, F>>), BoardError>
        ensures { OpensWith ⟦<F as Family<Posted<V>>>⟧ V.obeys n limit opening result }
    {
        if !(2..=16).contains(&n) {
            return Err(BoardError::Processes);
        }
        if limit == 0 || limit == u64::MAX {
            return Err(BoardError::Limit);
        }
        if !opening.fits() {
            return Err(BoardError::Opening);
        }
        let first = Posted {
            stamp: Stamp { tag: 0, writer: 0 },
            item: opening,
        };
        match deal(alloc, n, limit, first) {
            Ok(made) => Ok(made),
            Err(_) => Err(BoardError::NoMemory),
        }
    }

    /// A new board that opens with the item of the last record of another.
    pub fn renew(
        alloc: Global,
        n: usize,
        limit: u64,
        last: Posted<V>,
    ) -> Result<(Board<V, F>, Vec<Pass<V, F>>), BoardError>
        ensures { OpensWith ⟦<F as Family<Posted<V>>>⟧ V.obeys n limit last.item result }
    {
        Board::new(alloc, n, limit, last.item)
    }
}
