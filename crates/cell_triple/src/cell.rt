//! The triple buffer: one word and three slots. It is a technique in common use.
//!
//! The word is `middle + 4 * mark`. A write fills the writer's slot and swaps it with the middle, with a mark.
//! A read loads the word and, where it has the mark, swaps its own slot with the middle, without one; the
//! answer is the record of its slot.
ghost use Rattle.std.specs.Prelude.{◌≡◌, ℕ, ◌<◌, [], ◌∷◌};
ghost use Rattle.cell_contract.specs.declared.sight.Sight.TheVariants.{Writer, Reader, Told};
ghost use Rattle.cell_contract.specs.Running.{held_slots, snap};
ghost use Rattle.cell_contract.specs.Sights.{writer_or, reader_or, receipt_or};
ghost use Rattle.cell_triple.specs.Steps.{first_writer, first_reader};
ghost use Rattle.cell_contract.specs.Intervals.{dated};

use crate::notes::TripleSight;
use crate::table::{TripleSeat, TripleTable};
use atomic_table::TableRule;
use cell_contract::{Lawful, Spare};

/// The rule of the table of a triple buffer.
pub struct Triple;

impl<T: Lawful> TableRule<T, TripleSight<T>, T> for Triple {
    ghost use Rattle.cell_triple.specs.Rule.{TripleRule};
    ghost use Rattle.cell_triple.specs.Steps.{first_sight};

    ghost holds = { TripleRule T.fits T.rises };

    ghost first = { first_sight };
}

/// A cell of three slots. A `write` makes one control access, a `read` one or two.
#[derive(Drop)]
pub struct TripleCell<T: Lawful> {
    pub(crate) table: TripleTable<T>,
}

/// The right to write into a triple buffer. It holds a slot.
#[derive(Drop)]
pub struct TriplePut<T: Copy> {
    pub(crate) seat: TripleSeat<T>,
    pub(crate) slot: usize,
    /// The opening: the notes' default in proofs.
    pub(crate) spare: Spare<T>,
    ghost known: { seat.inner.me.0 ≡ Writer (writer_or (first_writer spare.value) seat.inner.me.0) },
    ghost ready: { let p = writer_or (first_writer spare.value) seat.inner.me.0 in (p.has ≡ 1) × (p.slot ≡ slot) },
    ghost held: { held_slots seat.inner.me.1 ≡ slot ∷ [] },
    ghost low: { slot < 3 },
}

/// The right to read a triple buffer. It holds the slot of its last answer.
#[derive(Drop)]
pub struct TripleGet<T: Copy> {
    pub(crate) seat: TripleSeat<T>,
    pub(crate) slot: usize,
    /// The opening: the notes' default in proofs.
    pub(crate) spare: Spare<T>,
    ghost known: { seat.inner.me.0 ≡ Reader (reader_or (first_reader spare.value) seat.inner.me.0) },
    ghost ready: { let g = reader_or (first_reader spare.value) seat.inner.me.0 in
        (g.has ≡ 1) × (g.slot ≡ slot) × (g.asked ≡ 0) },
    ghost held: { seat.inner.me.1 ≡ (slot, (reader_or (first_reader spare.value) seat.inner.me.0).at_hand.value) ∷ [] },
    ghost low: { slot < 3 },
}

/// A receipt of a triple buffer.
#[derive(Drop)]
pub struct TripleReceipt<T: Copy> {
    pub(crate) seat: TripleSeat<T>,
    /// The opening: the record's default in proofs.
    pub(crate) spare: Spare<T>,
    ghost known: { seat.inner.me ≡ (Told (snap (receipt_or (dated spare.value) seat.inner.me.0)), []) },
}
