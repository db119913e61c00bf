//! The lanes of the cells of a board, and whose step of a cell an access is.

ghost use Rattle.std.specs.Prelude.{◌≡◌, ◌≤◌, ◌<◌, ◌-◌, ◌^◌};
ghost use Rattle.history_core.specs.Others.{other};
ghost use Rattle.picture_shapes.specs.Visits.{access_lane, access_turn, cell_lane, widest};

use four_slot_core::Turn;
use history_core::Band;
use matrix_core::MatrixTerm;

/// The most processes of a board whose cells have lanes.
pub const WIDEST: usize = 4;

/// A process of a board of so many, drawn among the lanes of `wide` processes.
#[derive(Clone, Copy)]
pub struct Process {
    pub wide: usize,
    pub processes: usize,
    pub who: usize,
}

impl Process {
    pub fn turn(self, access: usize) -> Turn
        requires { access < 2 ^ 63 }
        ensures { result ≡ access_turn self.processes access }
    {
        if access + 1 < self.processes {
            Turn::Reader
        } else {
            Turn::Writer
        }
    }

    pub fn lane(self, access: usize) -> usize
        requires small { access < 2 ^ 63 }
        requires many { self.processes ≤ 4 }
        requires who { self.who < self.processes }
        requires wide { self.wide ≤ 4 }
        ensures { result ≡ access_lane self.wide self.processes self.who access }
    {
        if access + 1 < self.processes {
            cell_lane(self.wide, other(self.who, access), self.who)
        } else {
            cell_lane(
                self.wide,
                self.who,
                other(self.who, access + 1 - self.processes),
            )
        }
    }
}

pub fn other(process: usize, number: usize) -> usize
    requires { number < 2 ^ 64 - 1 }
    ensures { result ≡ other process number }
{
    if number < process { number } else { number + 1 }
}

fn cell_lane(wide: usize, writer: usize, reader: usize) -> usize
    requires wide { wide ≤ 4 }
    requires writer { writer ≤ 4 }
    requires reader { reader ≤ 2 ^ 63 }
    ensures { result ≡ cell_lane wide writer reader }
{
    let seat = if reader < writer {
        reader
    } else {
        reader.saturating_sub(1)
    };
    wide + writer * wide.saturating_sub(1) + seat
}

/// The most processes that a term has.
pub fn widest(terms: &[MatrixTerm<Band>]) -> usize
    ensures { result ≡ widest terms.now }
{
    terms
        .iter()
        .fold(0, |n, term| n.max(term.plans.as_slice().len()))
}
