//! What a new board is, what accesses of its seats add, and what one order of all calls says.
ghost use Rattle.theorem_uses.specs.Dealt.{NewBoardsShow, OneOrderShows, OneRegisterShows};
ghost use Rattle.theorem_uses.specs.Dealt.{OpeningsShow, ReadsFromShow, RowsShow};
ghost use Rattle.theorem_uses.specs.Dealt.{SourcesShow, StepsRise, StepsShow, TimesShow, UnusedShow, WritesToShow};

use board_live::{Posted, RecordLaw};
use cell_contract::Family;

/// A new board has what was asked for, and an access of a seat changes what it is of.
pub fn new_boards_show<V: RecordLaw, F: Family<Posted<V>>>()
    ensures boards { NewBoardsShow ⟦<F as Family<Posted<V>>>⟧ V.obeys }
    ensures opens { OpeningsShow ⟦<F as Family<Posted<V>>>⟧ V.obeys }
    ensures writes { WritesToShow ⟦<F as Family<Posted<V>>>⟧ V.obeys }
    ensures reads { ReadsFromShow ⟦<F as Family<Posted<V>>>⟧ V.obeys }
{}

/// Steps rise, and calls stand one after the other.
pub fn steps_show()
    ensures steps { StepsShow }
    ensures rise { StepsRise }
    ensures rows { RowsShow }
    ensures times { TimesShow }
{}

/// One order of all calls is one register's.
pub fn one_order_shows<V>()
    ensures unused { UnusedShow V }
    ensures sources { SourcesShow V }
    ensures register { OneRegisterShows V }
    ensures order { OneOrderShows V }
{}
