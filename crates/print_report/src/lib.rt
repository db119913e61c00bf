//! The text of the reports that `fsr` prints of what it played and ran, by the lines of a history and
//! of an order and their pieces.
#![tactic(auto)]

mod cell;
mod line;
mod lines;
mod marks;
mod pieces;
mod races;
mod report;
mod slot_marks;
mod text;
mod titled;

pub use cell::{cell_lines, with_room};
pub use line::Line;
pub use lines::{push_lines_from, push_order};
pub use marks::Marks;
pub use pieces::{push_after_blank, put_item, put_number, put_op_head, put_op_tail};
pub use report::{Counts, Report};
pub use slot_marks::put_stamp;
pub use text::{report_text, report_text_leaking};
