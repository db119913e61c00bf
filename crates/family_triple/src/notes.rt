//! What the seats of a family of triple buffers know.
use cell_triple::TripleSight;
use family_table::notes::View;

/// What a seat of a family of triple buffers knows.
pub type FamilySight<T> = View<TripleSight<T>>;
