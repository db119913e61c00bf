//! What a played board says of how it came about: its terms, their runs, and the choices of their operations.
ghost use Rattle.theorem_uses.specs.Composed.{ChoicesShow, EarlierShows, FirstChoiceShows, ListedSlotsShow};
ghost use Rattle.theorem_uses.specs.Composed.{OrdersByStampShow, PartsShow};
ghost use Rattle.theorem_uses.specs.Composed.{PlayableShow, RunOfBoardShows, SecondChoiceShows};
ghost use Rattle.theorem_uses.specs.Composed.{SlotsOfBoardShow, TwoTermsShow};

/// A board's report is what its terms gave, each by a run of its cells, and only what can be played is played.
pub fn terms_show<R>()
    ensures playable { PlayableShow R }
    ensures terms { TwoTermsShow R }
    ensures parts { PartsShow R }
{}

/// In a run each operation saw what its cells answered, and the slots of a report are those that the cells chose.
pub fn runs_of_boards_show<R>()
    ensures run { RunOfBoardShows R }
    ensures slots { SlotsOfBoardShow R }
    ensures listed { ListedSlotsShow R }
    ensures order { OrdersByStampShow R }
{}

/// The first choices are told by the law of choices, and each is that of its operation.
pub fn choices_show<R>()
    ensures first { FirstChoiceShows R }
    ensures second { SecondChoiceShows R }
    ensures choices { ChoicesShow R }
    ensures earlier { EarlierShows R }
{}
