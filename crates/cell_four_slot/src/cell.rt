//! The four-slot cell: four words of one bit and four slots.
//!
//! Word 0 is `latest`, word 1 `reading`, words 2 and 3 are the bits of the pairs, and a slot's number is
//! `2 * pair + index`. So its rule numbers the words; in the table they lie apart (`specs/Spread.antt`). The rule says
//! that words, slots and views show a state of the four-slot register which keeps that register's invariant, and to
//! which some interleaving of the two passes' events leads from the opening.
ghost use Rattle.std.specs.Prelude.{◌≡◌, [], ◌∷◌};
ghost use Rattle.four_slot_core.specs.declared.state.Stage.TheVariants.{W5};
ghost use Rattle.four_slot_core.specs.declared.state.ReaderStage.TheVariants.{R5};
ghost use Rattle.cell_contract.specs.declared.sight.Sight.TheVariants.{Writer, Reader, Told};
ghost use Rattle.four_slot_core.specs.Events.{bit_number};
ghost use Rattle.cell_contract.specs.Running.{last_or, snap};
ghost use Rattle.cell_contract.specs.Sights.{writer_or, reader_or, receipt_or};
ghost use Rattle.cell_four_slot.specs.Steps.{first_writer, first_reader, slot_of_choice, word_said, bit_words};
ghost use Rattle.cell_contract.specs.Intervals.{dated};

use crate::notes::FourSlotSight;
use crate::table::{FourSlotSeat, FourSlotTable};
use atomic_table::TableRule;
use cell_contract::{Lawful, Spare};

/// The rule of the table of a four-slot cell.
pub struct FourSlot;

impl<T: Lawful> TableRule<T, FourSlotSight<T>, T> for FourSlot {
    ghost use Rattle.cell_four_slot.specs.Spread.{SpreadRule};
    ghost use Rattle.cell_four_slot.specs.Steps.{first_sight};

    ghost holds = { SpreadRule T.fits T.rises };

    ghost first = { first_sight };
}

/// A cell of four slots. Each `write` and each `read` makes three control accesses, plain loads and stores, or two
/// where the third would store what its word has already.
#[derive(Drop)]
pub struct FourSlotCell<T: Lawful> {
    pub(crate) table: FourSlotTable<T>,
}

/// The right to write into a four-slot cell.
#[derive(Drop)]
pub struct FourSlotPut<T: Copy> {
    pub(crate) seat: FourSlotSeat<T>,
    /// The pairs' bits, as this pass stored them last: their words.
    pub(crate) remembered: [u64; 2],
    /// What `latest` has, as this pass stored it.
    pub(crate) latest: u64,
    /// The opening: the notes' default in proofs.
    pub(crate) spare: Spare<T>,
    ghost known: { seat.inner.me ≡ (Writer (writer_or (first_writer spare.value) seat.inner.me.0), []) },
    ghost idle: { (writer_or (first_writer spare.value) seat.inner.me.0).stage ≡ W5 },
    ghost bits: { bit_words (writer_or (first_writer spare.value) seat.inner.me.0).remembered ≡ remembered },
    ghost shown: { latest ≡ bit_number (writer_or (first_writer spare.value) seat.inner.me.0).latest },
    ghost newest: { let p = writer_or (first_writer spare.value) seat.inner.me.0 in
        p.finished.value ≡ last_or p.opening.value p.written },
}

/// The right to read a four-slot cell. From its first read on it holds the slot of its last answer.
#[derive(Drop)]
pub struct FourSlotGet<T: Copy> {
    pub(crate) seat: FourSlotSeat<T>,
    /// What `reading` has, as this pass stored it: 2 where it has stored nothing.
    pub(crate) said: u64,
    /// The opening: the notes' default in proofs.
    pub(crate) spare: Spare<T>,
    ghost known: { seat.inner.me.0 ≡ Reader (reader_or (first_reader spare.value) seat.inner.me.0) },
    ghost idle: { (reader_or (first_reader spare.value) seat.inner.me.0).stage ≡ R5 },
    ghost holds: { let g = reader_or (first_reader spare.value) seat.inner.me.0 in
        seat.inner.me.1 ≡ slot_of_choice g.chosen g.at_hand.value },
    ghost stored: { said ≡ word_said (reader_or (first_reader spare.value) seat.inner.me.0).chosen },
}

/// A receipt of a four-slot cell.
#[derive(Drop)]
pub struct FourSlotReceipt<T: Copy> {
    pub(crate) seat: FourSlotSeat<T>,
    /// The opening: the record's default in proofs.
    pub(crate) spare: Spare<T>,
    ghost known: { seat.inner.me ≡ (Told (snap (receipt_or (dated spare.value) seat.inner.me.0)), []) },
}
