// made by c/exports.py
//! A place at a board over each family, with records that have no law.
//!
//! Its type names the record alone, so a call at it has a small dictionary.
ghost use Rattle.std.specs.Prelude.{map};
ghost use Rattle.std.specs.Arc.{arc_value};
ghost use Rattle.board_live.specs.Passes.{IsPass};
ghost use Rattle.c_boards.specs.Boards.{HasPosted, IsRefused, HasSeen, IsBoardOf};

use board_live::{BoardError, Posted};
use c_boards::{Free, HasPlace, Place, Sits, Sitting, open_places};
use cell_contract::Family;
use family_four_slot::FourSlotFamily;
use family_triple::TripleFamily;
use matrix_core::Stamp;
use std::alloc::Global;

/// A place at a board over four-slot cells.
#[derive(Drop)]
pub struct FourSlotPlace<W: Free + Drop> {
    pub place: Place<W, FourSlotFamily<Posted<W>>>,
}

impl<W: Free + Drop> HasPlace<Place<W, FourSlotFamily<Posted<W>>>> for FourSlotPlace<W> {
    ghost place = { λ p. p.place };

    fn of(inside: Place<W, FourSlotFamily<Posted<W>>>) -> FourSlotPlace<W> {
        FourSlotPlace { place: inside }
    }
}

impl<W: Free + Drop> Sits for FourSlotPlace<W> {
    ghost sits = { λ p. IsPass ⟦<FourSlotFamily<Posted<W>> as Family<Posted<W>>>⟧ W.obeys (arc_value p.place.board)
        p.place.pass.value };
}

impl<W: Free + Drop> Sitting<W> for FourSlotPlace<W> {
    ghost has_posted = { λ p q. HasPosted ⟦<FourSlotFamily<Posted<W>> as Family<Posted<W>>>⟧ W.obeys
        (arc_value p.place.board) (arc_value q.place.board) p.place.pass.value q.place.pass.value };

    ghost is_refused = { λ p q. IsRefused ⟦<FourSlotFamily<Posted<W>> as Family<Posted<W>>>⟧ W.obeys
        (arc_value p.place.board) (arc_value q.place.board) p.place.pass.value q.place.pass.value };

    ghost has_seen = { λ p q. HasSeen ⟦<FourSlotFamily<Posted<W>> as Family<Posted<W>>>⟧ W.obeys
        (arc_value p.place.board) (arc_value q.place.board) p.place.pass.value q.place.pass.value };

    ghost is_made = { λ n limit w ps. IsBoardOf ⟦<FourSlotFamily<Posted<W>> as Family<Posted<W>>>⟧ W.obeys n limit w
        (map (λ p. arc_value p.place.board) ps) (map (λ p. p.place.pass.value) ps) };

    fn open(
        alloc: Global,
        n: usize,
        limit: u64,
        words: W,
    ) -> Result<Vec<FourSlotPlace<W>>, BoardError> {
        open_places::<FourSlotPlace<W>, W, FourSlotFamily<Posted<W>>>(alloc, n, limit, words)
    }

    #[inline]
    fn post(&mut self, words: &W) -> Option<Stamp> {
        self.place.post(words)
    }

    #[inline]
    fn see(&mut self) -> Posted<W> {
        self.place.see()
    }
}

/// A place at a board over triple buffers.
#[derive(Drop)]
pub struct TriplePlace<W: Free + Drop> {
    pub place: Place<W, TripleFamily<Posted<W>>>,
}

impl<W: Free + Drop> HasPlace<Place<W, TripleFamily<Posted<W>>>> for TriplePlace<W> {
    ghost place = { λ p. p.place };

    fn of(inside: Place<W, TripleFamily<Posted<W>>>) -> TriplePlace<W> {
        TriplePlace { place: inside }
    }
}

impl<W: Free + Drop> Sits for TriplePlace<W> {
    ghost sits = { λ p. IsPass ⟦<TripleFamily<Posted<W>> as Family<Posted<W>>>⟧ W.obeys (arc_value p.place.board)
        p.place.pass.value };
}

impl<W: Free + Drop> Sitting<W> for TriplePlace<W> {
    ghost has_posted = { λ p q. HasPosted ⟦<TripleFamily<Posted<W>> as Family<Posted<W>>>⟧ W.obeys
        (arc_value p.place.board) (arc_value q.place.board) p.place.pass.value q.place.pass.value };

    ghost is_refused = { λ p q. IsRefused ⟦<TripleFamily<Posted<W>> as Family<Posted<W>>>⟧ W.obeys
        (arc_value p.place.board) (arc_value q.place.board) p.place.pass.value q.place.pass.value };

    ghost has_seen = { λ p q. HasSeen ⟦<TripleFamily<Posted<W>> as Family<Posted<W>>>⟧ W.obeys
        (arc_value p.place.board) (arc_value q.place.board) p.place.pass.value q.place.pass.value };

    ghost is_made = { λ n limit w ps. IsBoardOf ⟦<TripleFamily<Posted<W>> as Family<Posted<W>>>⟧ W.obeys n limit w
        (map (λ p. arc_value p.place.board) ps) (map (λ p. p.place.pass.value) ps) };

    fn open(
        alloc: Global,
        n: usize,
        limit: u64,
        words: W,
    ) -> Result<Vec<TriplePlace<W>>, BoardError> {
        open_places::<TriplePlace<W>, W, TripleFamily<Posted<W>>>(alloc, n, limit, words)
    }

    #[inline]
    fn post(&mut self, words: &W) -> Option<Stamp> {
        self.place.post(words)
    }

    #[inline]
    fn see(&mut self) -> Posted<W> {
        self.place.see()
    }
}
