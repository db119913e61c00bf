//! The end of a board with the passes that are left: those of tasks that were lost, or
//! stopped for ever, don't come back.
ghost use Rattle.std.specs.Prelude.{◌≡◌, ◌<◌, IfOk, map, vec_len};
ghost use Rattle.board_live.specs.Ends.{IsGreatest};
ghost use Rattle.board_live.specs.Left.{HaveAtomicOrderWith, SomePasses};

use crate::board::{Board, Pass};
use crate::ends::greatest_own;
use crate::record::{Posted, RecordLaw};
use cell_contract::Family;
use family_table::left::EndsWithSome;
use std::alloc::{AllocError, Global};

/// The seats of the passes, in their order.
fn seats_left<V: RecordLaw, F: Family<Posted<V>>>(
    alloc: Global,
    passes: Vec<Pass<V, F>>,
) -> Result<Vec<F::Seat>, AllocError>
    ensures { IfOk result (λ seats. seats.items ≡ map (λ p. p.seat) passes.items) }
{
    let mut passes = passes;
    let mut seats = Vec::with_capacity(alloc, passes.len())?;
    for _ in 0..passes.len() {
        let Some(pass) = passes.pop() else {
            unreachable!();
        };
        let Pass {
            process: _,
            own: _,
            told: _,
            seat,
            room: _,
        } = pass;
        seats.push(seat)?;
    }
    seats.reverse();
    Ok(seats)
}

impl<V: RecordLaw, F: EndsWithSome<Posted<V>>> Board<V, F> {
    /// Ends the board with the passes that are left, at least one, and frees it: all calls so far, ended or cut off,
    /// have one order that is atomic by their intervals and refuses lawfully. Gives the greatest of these passes' own
    /// records. A refusal drops the board and the passes.
    pub fn finish_with(
        self,
        alloc: Global,
        passes: Vec<Pass<V, F>>,
    ) -> Result<Posted<V>, AllocError>
        requires some { 0 < vec_len passes }
        requires passes { SomePasses ⟦<F as Family<Posted<V>>>⟧ V.obeys self passes.items }
        ensures last { IfOk result (λ last. IsGreatest passes.items last) }
        ensures atomic { IfOk result (λ last. HaveAtomicOrderWith ⟦<F as Family<Posted<V>>>⟧ self passes.items) }
    {
        let last = greatest_own(&passes);
        let Board {
            family,
            processes: _,
            limit: _,
            first: _,
        } = self;
        let seats = seats_left(alloc, passes)?;
        family.finish_with(seats);
        Ok(last)
    }
}
