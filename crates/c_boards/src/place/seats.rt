//! The places of a new board.
ghost use Rattle.std.specs.Prelude.{◌≡◌, ℕ, IfOk, map, slice_get, Some};
ghost use Rattle.std.specs.Arc.{arc_value};
ghost use Rattle.board_live.specs.Passes.{IsPass};
ghost use Rattle.c_boards.specs.Boards.{IsBoardOf};
ghost use Rattle.c_boards.specs.Opens.{Pairs, OpensPlaces};

use super::Place;
use crate::sits::Free;
use board_live::{Board, BoardError, Pass, Posted, RecordLaw};
use cell_contract::Family;
use std::alloc::{AllocError, Global};
use std::sync::Arc;

/// A struct that has a place at a board, and nothing else.
pub trait HasPlace<P>: Sized + Drop {
    ghost place: { Self → P };

    /// The struct with this place.
    fn of(inside: P) -> Self
        ensures { place result ≡ inside };
}

/// A place with a share of the board and this pass.
fn seat<D: HasPlace<Place<V, F>>, V: RecordLaw + Drop, F: Family<Posted<V>>>(
    alloc: Global,
    board: &Arc<Board<V, F>, Global>,
    pass: Pass<V, F>,
) -> Result<D, AllocError>
    ensures { IfOk result
        (λ d. ((D.place d).pass.value ≡ pass) × (arc_value (D.place d).board ≡ arc_value board.now)) }
{
    let board = Arc::try_clone(board)?;
    let pass = Box::new(alloc, pass)?;
    Ok(D::of(Place { board, pass }))
}

/// A place for each pass, with a share of the board.
fn seats<D: HasPlace<Place<V, F>>, V: RecordLaw + Drop, F: Family<Posted<V>>>(
    alloc: Global,
    board: Arc<Board<V, F>, Global>,
    passes: Vec<Pass<V, F>>,
) -> Result<Vec<D>, AllocError>
    ensures { IfOk result
        (λ v. Pairs (λ p d. ((D.place d).pass.value ≡ p) × (arc_value (D.place d).board ≡ arc_value board))
        passes.items v.items) }
{
    let mut passes = passes;
    let mut places = Vec::with_capacity(alloc, passes.len())?;
    for _ in 0..passes.len() {
        let Some(pass) = passes.pop() else {
            unreachable!();
        };
        let place = seat::<D, V, F>(alloc, &board, pass)?;
        places.push(place)?;
    }
    places.reverse();
    Ok(places)
}

/// The board in memory that all places share.
fn share<D: HasPlace<Place<V, F>>, V: RecordLaw + Drop, F: Family<Posted<V>>>(
    alloc: Global,
    board: Board<V, F>,
    passes: Vec<Pass<V, F>>,
) -> Result<Vec<D>, AllocError>
    ensures { IfOk result
        (λ v. Pairs (λ p d. ((D.place d).pass.value ≡ p) × (arc_value (D.place d).board ≡ board))
        passes.items v.items) }
{
    let board = Arc::new(alloc, board)?;
    seats::<D, V, F>(alloc, board, passes)
}

/// The places of a new board, in rising order.
pub fn open_places<D: HasPlace<Place<V, F>>, V: Free + Drop, F: Family<Posted<V>>>(
    alloc: Global,
    n: usize,
    limit: u64,
    words: V,
) -> Result<Vec<D>, BoardError>
    ensures opens { OpensPlaces (λ n limit w ds. IsBoardOf ⟦<F as Family<Posted<V>>>⟧ V.obeys n limit w
        (map (λ d. arc_value (D.place d).board) ds) (map (λ d. (D.place d).pass.value) ds)) n limit words result }
    ensures sits { IfOk result (λ v. (k : ℕ) (d : D) → slice_get v.items k ≡ Some d →
        IsPass ⟦<F as Family<Posted<V>>>⟧ V.obeys (arc_value (D.place d).board) (D.place d).pass.value) }
{
    let (board, passes) = Board::<V, F>::new(alloc, n, limit, words)?;
    match share::<D, V, F>(alloc, board, passes) {
        Ok(places) => Ok(places),
        Err(_) => Err(BoardError::NoMemory),
    }
}
