//! What accesses of a family, orders by number and counts of calls say.
ghost use Rattle.theorem_uses.specs.Parts.{AnsweredShow, CountsShow, FollowsShow, GreatestShows};
ghost use Rattle.theorem_uses.specs.Parts.{MindfulShows, NothingShows};
ghost use Rattle.theorem_uses.specs.Parts.{NumbersShow, OpsShow, ReadsShow, WritesShow};

/// A read and a write of a family add what they say, and an answer is no older than what was told.
pub fn accesses_show<T>()
    ensures reads { ReadsShow T }
    ensures writes { WritesShow T }
    ensures answered { AnsweredShow T }
    ensures mindful { MindfulShows T }
{}

/// An order by number has each place once, calls are counted, and the greatest record is a process's last.
pub fn numbers_show<T>()
    ensures order { NumbersShow T }
    ensures counts { CountsShow T }
    ensures ops { OpsShow T }
    ensures nothing { NothingShows T }
    ensures follows { FollowsShow T }
    ensures greatest { GreatestShows T }
{}
