//! The board, and the passes of its processes.

use crate::record::{Posted, RecordLaw};
use cell_contract::Family;

/// A board: a family of registers, one from each process to each other one.
#[derive(Drop)]
pub struct Board<V: RecordLaw, F: Family<Posted<V>>> {
    pub(crate) family: F,
    pub(crate) processes: usize,
    pub(crate) limit: u64,
    pub(crate) first: Posted<V>,
}

/// The right to call as one of the processes.
#[derive(Drop)]
pub struct Pass<V: RecordLaw, F: Family<Posted<V>>> {
    pub(crate) process: usize,
    pub(crate) own: Posted<V>,
    /// Whether each register of the process holds its own record. Else a call that has ended told this one or a newer
    /// one.
    pub(crate) told: bool,
    pub(crate) seat: F::Seat,
    /// Room for the seats of all passes, which the last process's pass has, so that the board's end takes no memory. It
    /// isn't the board's: threads share that one, and a seat need not be `Sync`.
    pub(crate) room: Vec<F::Seat>,
}

/// The tags have ended. What was seen is handed on, as by a read.
#[derive(Debug, Drop)]
pub struct Refused<V> {
    pub seen: Posted<V>,
}
