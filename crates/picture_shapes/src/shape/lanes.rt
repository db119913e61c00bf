//! What lanes are, the head of a lane, and the rows in the lane of a board's cell.

ghost use Rattle.std.specs.Prelude.{◌≡◌, ◌+◌, ◌-◌, ◌<◌, ◌≤◌, ◌^◌, ◌++◌, length};
ghost use Rattle.history_core.specs.Others.{other};
ghost use Rattle.picture_shapes.specs.Shapes.{cell_name, lane_head, lane_name, lane_words};
ghost use Rattle.picture_shapes.specs.Shapes.{row_text, row_y, side_name, who_name};

use crate::places::y_of;
use print_report::Line;

/// What the lanes of a picture are.
#[derive(Clone, Copy, Debug, PartialEq, Eq)]
pub enum Lanes {
    /// A lane for each actor.
    Actors,
    /// The writer and the reader of a cell, and its four slots.
    Cell,
    /// So many processes, and the cells of their board: those that process 0 writes, then
    /// those of process 1, and so on.
    Board { processes: usize },
}

/// The height of a row in the lane of a board's cell.
const ROW: u64 = 14;

/// The height of a bar in such a row.
pub const ROW_BAR: u64 = 10;

/// The head of a lane.
#[tactic(auto, unfolding(crate::specs::Shapes::lane_head), using(std::proofs::Common::append_assoc))]
pub fn put_lane(line: &mut Line, lanes: Lanes, far: u64, lane: usize)
    requires { length line.old ≡ 0 }
    ensures { line.new ≡ lane_head lanes far lane ++ line.old }
{
    put_lane_words(line, lanes, lane);
    line.put_number(far);
    line.put(b"H");
    line.put_number(y_of(lane));
    line.put(b"<path class=\"l\" d=\"M0 ");
}

#[tactic(auto, unfolding(crate::specs::Shapes::lane_words), using(std::proofs::Common::append_assoc))]
fn put_lane_words(line: &mut Line, lanes: Lanes, lane: usize)
    requires { length line.old ≡ 0 }
    ensures text { line.new ≡ lane_words lanes lane ++ line.old }
    ensures len { length line.new ≤ length line.old + 120 }
{
    line.put(b"</text>\n");
    put_lane_name(line, lanes, lane);
    line.put(b"\">");
    line.put_number(y_of(lane) + 48);
    line.put(b"\"/><text x=\"8\" y=\"");
}

#[tactic(auto, using(std::proofs::Common::append_assoc))]
fn put_lane_name(line: &mut Line, lanes: Lanes, lane: usize)
    requires { length line.old + 50 ≤ 256 }
    ensures text { line.new ≡ lane_name lanes lane ++ line.old }
    ensures len { length line.new ≤ length line.old + 50 }
{
    match lanes {
        Lanes::Actors => put_who_name(line, lane),
        Lanes::Cell => put_side_name(line, lane),
        Lanes::Board { processes } if lane < processes => put_who_name(line, lane),
        Lanes::Board { processes } => {
            let seats = processes.saturating_sub(1).max(1);
            let cell = lane.saturating_sub(processes);
            let writer = cell / seats;
            put_cell_name(line, writer, reader_of(writer, cell % seats));
        }
    }
}

/// The reader of cell number `seat` among those of a writer.
fn reader_of(writer: usize, seat: usize) -> usize
    requires { seat < 2 ^ 64 - 1 }
    ensures { result ≡ other writer seat }
{
    if seat < writer { seat } else { seat + 1 }
}

#[tactic(auto, using(std::proofs::Common::append_assoc))]
fn put_who_name(line: &mut Line, lane: usize)
    requires { length line.old + 50 ≤ 256 }
    ensures text { line.new ≡ who_name lane ++ line.old }
    ensures len { length line.new ≤ length line.old + 50 }
{
    line.put_number(lane as u64);
    line.put(b"who ");
}

#[tactic(auto, unfolding(crate::specs::Shapes::cell_name), using(std::proofs::Common::append_assoc))]
fn put_cell_name(line: &mut Line, writer: usize, reader: usize)
    requires { length line.old + 50 ≤ 256 }
    ensures text { line.new ≡ cell_name writer reader ++ line.old }
    ensures len { length line.new ≤ length line.old + 50 }
{
    line.put(b")");
    line.put_number(reader as u64);
    line.put(b",");
    line.put_number(writer as u64);
    line.put(b"cell (");
}

#[tactic(auto, using(std::proofs::Common::append_assoc))]
fn put_side_name(line: &mut Line, lane: usize)
    requires { length line.old + 50 ≤ 256 }
    ensures text { line.new ≡ side_name lane ++ line.old }
    ensures len { length line.new ≤ length line.old + 50 }
{
    if lane == 0 {
        line.put(b"writer");
    } else if lane == 1 {
        line.put(b"reader");
    } else {
        line.put_number(lane as u64 - 2);
        line.put(b"slot ");
    }
}

/// The y of the row of a slot in the lane of a board's cell.
pub fn row_y(lane: usize, slot: u8) -> u64
    ensures y { result ≡ row_y lane slot }
    ensures most { result ≤ 8000 }
{
    y_of(lane) + 6 + ROW * slot as u64
}

#[tactic(auto, unfolding(crate::specs::Shapes::row_text), using(std::proofs::Common::append_assoc))]
pub fn put_row(line: &mut Line, lane: usize, slot: u8)
    requires { length line.old ≡ 0 }
    ensures { line.new ≡ row_text lane slot ++ line.old }
{
    line.put(b"</text>\n");
    line.put_number(slot as u64);
    line.put(b"\">");
    line.put_number(row_y(lane, slot) + 9);
    line.put(b"\" y=\"");
    line.put(b"<text class=\"a\" x=\"82");
}
