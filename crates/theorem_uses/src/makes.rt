//! What a make and an end through C say of the handles, by their status.
ghost use Rattle.theorem_uses.specs.Makes.{EndStatusesShow, FourSlotMakesShow, MakeStatusesShow, TripleMakesShow};

/// The two sides of a register that was made are of one new cell.
pub fn makes_show<W>()
    ensures four_slot { FourSlotMakesShow W }
    ensures triple { TripleMakesShow W }
{}

/// Whatever handles can have, a make or an end with status 0 was made, and with any other status nothing was.
pub fn make_statuses_show<D, E, W>()
    ensures makes { MakeStatusesShow D E W }
    ensures ends { EndStatusesShow D }
{}
