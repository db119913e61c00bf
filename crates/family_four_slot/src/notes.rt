//! What the seats of a family of four-slot cells know.
use cell_four_slot::FourSlotSight;
use family_table::notes::View;

/// What a seat of a family of four-slot cells knows.
pub type FamilySight<T> = View<FourSlotSight<T>>;
