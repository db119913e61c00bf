//! What a read, a look, a hold and a loan through C say of the reader's and the writer's side, by their status.
ghost use Rattle.theorem_uses.specs.Reads.{BacksShow, FourSlotReadsShow, HoldStatusesShow, LacksShow};
ghost use Rattle.theorem_uses.specs.Reads.{FourSlotReadsNeverFall, TripleReadsNeverFall};
ghost use Rattle.theorem_uses.specs.Reads.{LookStatusesShow, ReadStatusesShow, TripleReadsShow};

/// A read that was made answers one record more, which the register had.
pub fn reads_show<W>()
    ensures four_slot { FourSlotReadsShow W }
    ensures triple { TripleReadsShow W }
{}

/// A register's read shows all calls so far in one order, also a write that is under way or was cut off: an answer
/// older than an earlier one is absurd.
pub fn stale_reads_show<W>()
    ensures four_slot { FourSlotReadsNeverFall W }
    ensures triple { TripleReadsNeverFall W }
{}

/// Whatever a handle can have, a read with status 0 was made, and with any other status nothing was.
pub fn read_statuses_show<D, W>()
    ensures reads { ReadStatusesShow D W }
    ensures looks { LookStatusesShow D W }
    ensures holds { HoldStatusesShow D W }
{}

/// What a handle has once a record is back that was lent, or words are in its slot; and why none was lent.
pub fn lent_sides_show<D, W>()
    ensures backs { BacksShow D W }
    ensures lacks { LacksShow }
{}
