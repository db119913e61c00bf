//! What the lanes of a board's picture are, and how many lanes a picture has.

ghost use Rattle.std.specs.Prelude.{◌≡◌};
ghost use Rattle.print_picture.specs.Picture.{board_lanes, lanes_of};

use history_core::{Band, Op};
use matrix_core::MatrixTerm;
use picture_shapes::{Lanes, WIDEST, actors_of, widest};

/// The lanes of a board's picture: with its cells, where no term has more than four processes.
pub fn board_lanes(terms: &[MatrixTerm<Band>]) -> Lanes
    ensures { result ≡ board_lanes terms.now }
{
    let processes = widest(terms);
    if processes <= WIDEST {
        Lanes::Board { processes }
    } else {
        Lanes::Actors
    }
}

/// How many lanes there are. A board with its cells has four processes at most.
pub fn lanes_of(lanes: Lanes, ops: &[Op<Band>]) -> usize
    ensures { result ≡ lanes_of lanes ops.now }
{
    match lanes {
        Lanes::Actors => actors_of(ops),
        Lanes::Cell => 6,
        Lanes::Board { processes } => processes.min(WIDEST) * processes.min(WIDEST),
    }
}
