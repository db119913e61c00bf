//! A family whose end takes those seats that are left.
ghost use Rattle.std.specs.Prelude.{◌<◌, vec_len};
ghost use Rattle.cell_contract.specs.Ends.{Each};
ghost use Rattle.family_table.specs.Left.{AreSoFarWith};

use cell_contract::{Family, Planned};

/// A family that some of its seats can end, as those of processes that were lost don't come back.
pub trait EndsWithSome<T: Planned>: Family<T> {
    /// Ends the family with these seats, at least one, and shows with them what all processes have done so far.
    fn finish_with(self, seats: Vec<Self::Seat>)
        requires some { 0 < vec_len seats }
        requires seats { Each (λ i s. Self.is_seat self s) seats.items }
        ensures so_far { AreSoFarWith (T.plan (Self.opening self) Self.width (Self.processes self) (Self.limit self))
            (Self.opening self) (Self.processes self) Self.who Self.times Self.writes Self.reads Self.said Self.found
            seats.items };
}
