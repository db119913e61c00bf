//! What the reports of played schedules say, and the answers of a search.
ghost use Rattle.theorem_uses.specs.Reports.{BoardReportsShow, CellReportsShow, KeepsApart};
ghost use Rattle.theorem_uses.specs.Reports.{MatrixReportsShow, ReadsNoOlderWrite};
ghost use Rattle.theorem_uses.specs.Reports.{SearchesRightly};

/// A report has the operations of its schedule and no others, with their intervals, in an atomic order that refuses
/// lawfully. Of a four-slot cell no slot is written while the reader is in it, and a read gives no older record
/// than a write that had ended.
pub fn reports_show<R>()
    ensures cells { CellReportsShow R }
    ensures matrices { MatrixReportsShow R }
    ensures boards { BoardReportsShow R }
    ensures fresh { ReadsNoOlderWrite R }
    ensures clear { KeepsApart R }
{}

/// An order that a search finds is lawful. Where it tells a reason no order is, and no reason is of an earlier rule.
pub fn searches_show<R>()
    ensures { SearchesRightly R }
{}
