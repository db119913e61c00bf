//! What the receipts of a board say, and how long a call takes.
ghost use Rattle.theorem_uses.specs.Learnt.{BoundsShow, DuplicatesShow, LearntShow, ReceiptsShow, SameShow, ToldShow};

use board_live::{Posted, RecordLaw};
use cell_contract::Family;

/// A receipt names its sender's record, and has its time and its writes; so does its duplicate, and
/// who learns it knows of them.
pub fn receipts_show<V: RecordLaw, F: Family<Posted<V>>>()
    ensures receipts { ReceiptsShow ⟦<F as Family<Posted<V>>>⟧ }
    ensures told { ToldShow ⟦<F as Family<Posted<V>>>⟧ }
    ensures duplicates { DuplicatesShow ⟦<F as Family<Posted<V>>>⟧ }
    ensures learnt { LearntShow ⟦<F as Family<Posted<V>>>⟧ }
{}

/// A call is bounded, and a receipt makes no call.
pub fn bounds_show<V: RecordLaw, F: Family<Posted<V>>>()
    ensures bounds { BoundsShow ⟦<F as Family<Posted<V>>>⟧ }
    ensures same { SameShow ⟦<F as Family<Posted<V>>>⟧ }
{}
