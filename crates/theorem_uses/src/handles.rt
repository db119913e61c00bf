//! What a status through C says of the handle and of the register behind it.
ghost use Rattle.theorem_uses.specs.Handles.{PassesOfCellsShow, StatusesShow, WrittenShows};

/// Whatever a handle can have, a write with status 0 was made, and with any other status nothing was.
pub fn statuses_show<D, W>()
    ensures { StatusesShow D W }
{}

/// A write that was made is the next one of the register.
pub fn writes_show<W>()
    ensures { WrittenShows W }
{}

/// A pass of a cell is of its table.
pub fn passes_of_cells_show<T: Copy>()
    ensures { PassesOfCellsShow T }
{}
