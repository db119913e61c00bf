//! The points of an order, the places of operations, and the joins between two of them.

ghost use Rattle.std.specs.Prelude.{◌≡◌, ◌+◌, ◌≤◌, ◌++◌, length};
ghost use Rattle.picture_shapes.specs.Shapes.{circle_text, join_head, join_text, place_head, place_text};
ghost use Rattle.picture_shapes.specs.Shapes.{point_number, point_text};
ghost use Rattle.picture_shapes.specs.Shapes.{spot_text};

use crate::shape::{Join, Spot};
use print_report::Line;

#[tactic(auto, unfolding(crate::specs::Shapes::point_text), using(std::proofs::Common::append_assoc))]
pub fn put_point(line: &mut Line, number: usize, at: Spot)
    requires empty { length line.old ≡ 0 }
    requires low { at.y ≤ 5000 }
    ensures { line.new ≡ point_text number at ++ line.old }
{
    put_point_number(line, number, at);
    line.put(b"<text class=\"n\" x=\"");
    put_circle(line, at);
}

#[tactic(auto, unfolding(crate::specs::Shapes::circle_text), using(std::proofs::Common::append_assoc))]
fn put_circle(line: &mut Line, at: Spot)
    requires { length line.old + 75 ≤ 256 }
    ensures { line.new ≡ circle_text at ++ line.old }
{
    line.put(b"\" r=\"12\"/>");
    line.put_number(at.y);
    line.put(b"\" cy=\"");
    line.put_number(at.x);
    line.put(b"<circle cx=\"");
}

#[tactic(auto, unfolding(crate::specs::Shapes::point_number), using(std::proofs::Common::append_assoc))]
fn put_point_number(line: &mut Line, number: usize, at: Spot)
    requires empty { length line.old ≡ 0 }
    requires low { at.y ≤ 5000 }
    ensures text { line.new ≡ point_number number at ++ line.old }
    ensures len { length line.new ≤ length line.old + 80 }
{
    line.put(b"</text>\n");
    line.put_number(number as u64);
    line.put(b"\">");
    line.put_number(at.y + 4);
    line.put(b"\" y=\"");
    line.put_number(at.x);
}

#[tactic(auto, unfolding(crate::specs::Shapes::join_text), using(std::proofs::Common::append_assoc))]
pub fn put_join(line: &mut Line, join: Join, a: Spot, b: Spot)
    requires { length line.old ≡ 0 }
    ensures { line.new ≡ join_text join a b ++ line.old }
{
    line.put(b"\"/>\n");
    put_spot(line, b);
    line.put(b"L");
    put_spot(line, a);
    put_join_head(line, join);
}

#[tactic(auto, unfolding(crate::specs::Shapes::spot_text), using(std::proofs::Common::append_assoc))]
fn put_spot(line: &mut Line, at: Spot)
    requires { length line.old + 41 ≤ 256 }
    ensures text { line.new ≡ spot_text at ++ line.old }
    ensures len { length line.new ≤ length line.old + 41 }
{
    line.put_number(at.y);
    line.put(b" ");
    line.put_number(at.x);
}

fn put_join_head(line: &mut Line, join: Join)
    requires { length line.old + 20 ≤ 256 }
    ensures { line.new ≡ join_head join ++ line.old }
{
    match join {
        Join::Answers => line.put(b"<path class=\"j\" d=\"M"),
        Join::Breaks => line.put(b"<path class=\"b\" d=\"M"),
        Join::Precedes => line.put(b"<path class=\"p\" d=\"M"),
    }
}

/// The place of an operation.
#[tactic(auto, unfolding(crate::specs::Shapes::place_text), using(std::proofs::Common::append_assoc))]
pub fn put_place(line: &mut Line, place: usize, at: Spot)
    requires { length line.old ≡ 0 }
    ensures { line.new ≡ place_text place at ++ line.old }
{
    line.put(b"</text>\n");
    line.put_number(place as u64);
    put_place_head(line, at);
}

#[tactic(auto, unfolding(crate::specs::Shapes::place_head), using(std::proofs::Common::append_assoc))]
fn put_place_head(line: &mut Line, at: Spot)
    requires { length line.old + 80 ≤ 256 }
    ensures { line.new ≡ place_head at ++ line.old }
{
    line.put(b"\">");
    line.put_number(at.y);
    line.put(b"\" y=\"");
    line.put_number(at.x);
    line.put(b"<text class=\"z\" x=\"");
}
