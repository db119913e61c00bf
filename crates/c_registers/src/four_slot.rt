//! The two sides of a four-slot cell, each with a share of the cell and its pass.
ghost use Rattle.std.specs.Prelude.{◌≡◌};
ghost use Rattle.std.specs.Arc.{arc_value};
ghost use Rattle.cell_contract.specs.Running.{last_or};
ghost use Rattle.cell_four_slot.specs.Words.{opening_of, is_put_of, is_get_of, written_by};

use crate::numbered::Numbered;
use cell_four_slot::{FourSlotCell, FourSlotGet, FourSlotPut};
use std::alloc::Global;
use std::sync::Arc;

mod calls;

/// The writing side.
#[derive(Drop)]
pub struct FourSlotWriter<W: Copy> {
    pub cell: Arc<FourSlotCell<Numbered<W>>, Global>,
    pub put: FourSlotPut<Numbered<W>>,
    /// The number of the last record.
    pub number: u64,
    ghost own: { is_put_of (arc_value cell) put },
    ghost last: { (last_or (opening_of (arc_value cell)) (written_by put)).number ≡ number },
}

/// The reading side.
#[derive(Drop)]
pub struct FourSlotReader<W: Copy> {
    pub cell: Arc<FourSlotCell<Numbered<W>>, Global>,
    pub get: FourSlotGet<Numbered<W>>,
    ghost own: { is_get_of (arc_value cell) get },
}
