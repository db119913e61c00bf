//! The table of a family: registers of one writer and one reader each, from each of 2 to 16 processes to
//! each other one, in one table and so in one time. Here is what is so of any mechanism of registers, which
//! the families of each stand on.
//!
//! A family implements `Mechanism`: where its registers lie, which rule each keeps, and what receipts
//! tell of it. `Rows` is then its table, of which seats are parted and joined, told and shown. The steps
//! of the mechanism stand with it.
//!
//! `EndsWithSome` is the family's end with those seats that are left.
//!
//! `specs/Family.antt` has the rule that words, slots and seats keep between any two steps, of any rule
//! that one register keeps; `specs/Layouts.antt` how registers lie in one table, and `specs/Seats.antt`
//! what goes from seat to seat.
#![tactic(auto)]

ghost use Rattle.std.specs.Prelude.{◌≡◌, ◌<◌, ◌≤◌};
ghost use Rattle.family_table.specs.Places.{place};

pub mod left;
pub mod mechanism;
pub mod notes;
pub mod plays;
pub mod processes;
pub mod table;

/// The cell that process `i` writes and process `j` reads.
#[inline]
pub fn place(processes: usize, i: usize, j: usize) -> usize
    requires { (processes ≤ 16) × (i < processes) × (j < processes) }
    ensures { result ≡ place processes i j }
{
    i * processes + j
}
