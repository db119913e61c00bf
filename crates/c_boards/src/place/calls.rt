//! The calls on a place at a board, where its pass is the board's.
ghost use Rattle.std.specs.Prelude.{IfSome, IfNone};
ghost use Rattle.std.specs.Arc.{arc_value};
ghost use Rattle.board_live.specs.Passes.{IsPass};
ghost use Rattle.c_boards.specs.Boards.{HasPosted, IsRefused, HasSeen};

use super::Place;
use crate::sits::Free;
use board_live::Posted;
use cell_contract::Family;
use matrix_core::Stamp;

impl<V: Free + Drop, F: Family<Posted<V>>> Place<V, F> {
    /// Puts the record under the next stamp above all that the process sees. `None` where the tags have ended.
    #[inline]
    pub fn post(&mut self, words: &V) -> Option<Stamp>
        requires { IsPass ⟦<F as Family<Posted<V>>>⟧ V.obeys (arc_value self.old.board) self.old.pass.value }
        ensures own { IsPass ⟦<F as Family<Posted<V>>>⟧ V.obeys (arc_value self.new.board) self.new.pass.value }
        ensures posted { IfSome result (λ s. HasPosted ⟦<F as Family<Posted<V>>>⟧ V.obeys (arc_value self.old.board)
            (arc_value self.new.board) self.old.pass.value self.new.pass.value words.now s) }
        ensures refused { IfNone result (IsRefused ⟦<F as Family<Posted<V>>>⟧ V.obeys (arc_value self.old.board)
            (arc_value self.new.board) self.old.pass.value self.new.pass.value) }
    {
        match self.board.write(self.pass.as_mut(), *words) {
            Ok(stamp) => Some(stamp),
            Err(_) => None,
        }
    }

    /// Gives the greatest record that the process sees.
    #[inline]
    pub fn see(&mut self) -> Posted<V>
        requires { IsPass ⟦<F as Family<Posted<V>>>⟧ V.obeys (arc_value self.old.board) self.old.pass.value }
        ensures own { IsPass ⟦<F as Family<Posted<V>>>⟧ V.obeys (arc_value self.new.board) self.new.pass.value }
        ensures seen { HasSeen ⟦<F as Family<Posted<V>>>⟧ V.obeys (arc_value self.old.board)
            (arc_value self.new.board) self.old.pass.value self.new.pass.value result }
    {
        self.board.read(self.pass.as_mut())
    }
}
