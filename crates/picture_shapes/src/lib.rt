//! The text of each shape of a picture, in SVG, and where moments and lanes lie in it; and the slot accesses of the
//! schedules of cells and boards, by the positions of their steps, with the lanes in which they are drawn.
#![tactic(auto)]

mod access;
mod cell;
mod lanes;
mod looks;
mod places;
mod process;
mod scale;
mod shape;
mod terms;
mod visit;

pub use cell::cell_visits;
pub use lanes::{WIDEST, widest};
pub use looks::push_looks;
pub use places::{actors_of, y_of};
pub use scale::Scale;
pub use shape::axis::{put_term, put_tick};
pub use shape::headline::{
    Name, put_first_words, put_last_words, put_long_named_words, put_long_words, put_name,
    put_named_words, put_words,
};
pub use shape::labels::{put_kind_words, put_told_words};
pub use shape::lanes::{Lanes, ROW_BAR, put_lane, put_row, row_y};
pub use shape::points::{put_join, put_place, put_point};
pub use shape::{Bar, Class, Join, Spot, bar_of, class_of, end_of, put_bar};
pub use terms::board_visits;
pub use visit::Visit;
