//! A register of several writers and readers from a matrix of cells that have one writer and one reader each, whatever
//! the cells are: its stamps and what operations choose by them, its schedules and reports, how far its processes are,
//! and the order of its operations. The idea of such a matrix with tags is credited to P. Vitányi and B. Awerbuch, FOCS
//! 1986; the rules are this project's own.
#![tactic(auto)]

pub mod laws;
mod operations;
mod order;
mod overruns;
mod progress;
mod schedule;
mod stamp;

pub use operations::{begun_op, chose, ended, planned};
pub use order::{list_last_term, list_term};
pub use overruns::{Cells, first_overrun};
pub use progress::{
    Outcome, Progress, cell_index, choose, done_at, filled, greatest_of, other, write_line,
};
pub use schedule::{BoardReport, BoardSchedule, MatrixReport, MatrixSchedule, MatrixTerm};
pub use stamp::{Stamp, Stamped};
