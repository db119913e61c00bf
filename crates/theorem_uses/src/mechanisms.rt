//! What a played cell says of how it came about, and what a safe slot answers.
ghost use Rattle.theorem_uses.specs.Mechanisms.{CellNumbersShow, CellOrdersShow, FinishedReadsShow};
ghost use Rattle.theorem_uses.specs.Mechanisms.{OwnNumbersShow, PlacesShow};
ghost use Rattle.theorem_uses.specs.Mechanisms.{RunOfCellShows};
ghost use Rattle.theorem_uses.specs.Mechanisms.{SafeSlotsShow, SlotAccessesShow};

/// A played cell's slots and answers are those of its run, and each finished read has the record
/// that was put into its slot last.
pub fn runs_of_cells_show<R>()
    ensures run { RunOfCellShows R }
    ensures reads { FinishedReadsShow R }
{}

/// Its order lists the operations by the numbers of their records.
pub fn cell_orders_show<R>()
    ensures orders { CellOrdersShow R }
    ensures numbers { CellNumbersShow R }
    ensures own { OwnNumbersShow }
    ensures places { PlacesShow R }
{}

/// A safe slot answers the record of its last write, but the noise to a read that meets a write.
pub fn safe_slots_show<R>()
    ensures slots { SafeSlotsShow R }
    ensures accesses { SlotAccessesShow R }
{}
