//! The two sides of a triple buffer, each with a share of the cell and its pass.
ghost use Rattle.std.specs.Prelude.{◌≡◌};
ghost use Rattle.std.specs.Arc.{arc_value};
ghost use Rattle.cell_contract.specs.Running.{last_or};
ghost use Rattle.cell_triple.specs.Words.{opening_of, is_put_of, is_get_of, written_by};

use crate::numbered::Numbered;
use crate::room::Room;
use cell_triple::{TripleCell, TripleGet, TriplePut};
use std::alloc::Global;
use std::sync::Arc;

mod calls;
mod ends;
mod fill;

/// The pass that writes, and a share of its cell.
#[derive(Drop)]
pub struct TripleFiller<W: Copy> {
    pub cell: Arc<TripleCell<Numbered<W>>, Global>,
    pub put: TriplePut<Numbered<W>>,
}

/// The writing side.
#[derive(Drop)]
pub struct TripleWriter<W: Copy> {
    pub room: Room<TripleFiller<W>>,
    /// The number of the last record.
    pub number: u64,
    ghost own: { is_put_of (arc_value room.inner.cell) room.inner.put },
    ghost last: { (last_or (opening_of (arc_value room.inner.cell)) (written_by room.inner.put)).number ≡ number },
}

/// A pass and a share of a cell.
#[derive(Drop)]
pub struct TripleEnds<W: Copy> {
    pub cell: Arc<TripleCell<Numbered<W>>, Global>,
    pub get: TripleGet<Numbered<W>>,
}

/// The reading side: a pass with a share of its cell.
#[derive(Drop)]
pub struct TripleReader<W: Copy> {
    pub room: Room<TripleEnds<W>>,
    ghost own: { is_get_of (arc_value room.inner.cell) room.inner.get },
}
