//! The text of each shape, and here of a bar. A text is put together from its end, in a line of 256 bytes; each
//! function that puts a piece asks for as much room as the longest such piece needs.

ghost use Rattle.std.specs.Prelude.{◌≡◌, ◌+◌, ◌≤◌, ◌++◌, length};
ghost use Rattle.picture_shapes.specs.Shapes.{bar_end, bar_head, bar_of, bar_sides, bar_text, class_of, end_of};

use crate::places::y_of;
use crate::scale::Scale;
use history_core::Kind;
use print_report::Line;

pub mod axis;
pub mod headline;
pub mod labels;
pub mod lanes;
pub mod points;

/// What a bar shows. The kinds differ in filling and outline, not in colour alone.
#[derive(Clone, Copy, Debug, PartialEq, Eq)]
pub enum Class {
    Write,
    Read,
    Refused,
    /// A mark round what breaks a rule.
    Broken,
}

/// An interval; where it isn't closed it has no right side.
#[derive(Clone, Copy, Debug, PartialEq, Eq)]
pub struct Bar {
    pub class: Class,
    pub y: u64,
    pub high: u64,
    pub from: u64,
    pub to: u64,
    pub closed: bool,
}

/// What a line between two operations says.
#[derive(Clone, Copy, Debug, PartialEq, Eq)]
pub enum Join {
    /// The second answers the first.
    Answers,
    /// The two break a rule.
    Breaks,
    /// The first precedes the second.
    Precedes,
}

/// A place of the picture.
#[derive(Clone, Copy, Debug, PartialEq, Eq)]
pub struct Spot {
    pub x: u64,
    pub y: u64,
}

pub fn class_of(kind: Kind) -> Class
    ensures { result ≡ class_of kind }
{
    match kind {
        Kind::Write => Class::Write,
        Kind::Read => Class::Read,
        Kind::Refused => Class::Refused,
    }
}

pub fn bar_of(class: Class, scale: &Scale, lane: usize, starts: u64, ends: Option<u64>) -> Bar
    ensures { result ≡ bar_of class scale.now lane starts ends }
{
    Bar {
        class,
        y: y_of(lane) + 32,
        high: 24,
        from: scale.x_of(starts),
        to: end_of(scale, ends),
        closed: ends.is_some(),
    }
}

pub fn end_of(scale: &Scale, ends: Option<u64>) -> u64
    ensures { result ≡ end_of scale.now ends }
{
    match ends {
        Some(end) => scale.x_of(end),
        None => scale.far(),
    }
}

#[tactic(auto, unfolding(crate::specs::Shapes::bar_text), using(std::proofs::Common::append_assoc))]
pub fn put_bar(line: &mut Line, bar: &Bar)
    requires { length line.old ≡ 0 }
    ensures { line.new ≡ bar_text bar.now ++ line.old }
{
    put_bar_sides(line, bar);
    line.put_number(bar.y);
    line.put(b" ");
    line.put_number(bar.to);
    put_bar_head(line, bar.class);
}

#[tactic(auto, unfolding(crate::specs::Shapes::bar_sides), using(std::proofs::Common::append_assoc))]
fn put_bar_sides(line: &mut Line, bar: &Bar)
    requires { length line.old + 80 ≤ 256 }
    ensures text { line.new ≡ bar_sides bar.now ++ line.old }
    ensures len { length line.new ≤ length line.old + 80 }
{
    put_bar_end(line, bar.closed);
    line.put_number(bar.to);
    line.put(b"H");
    line.put_number(bar.high);
    line.put(b"v");
    line.put_number(bar.from);
    line.put(b"H");
}

fn put_bar_end(line: &mut Line, closed: bool)
    requires { length line.old + 5 ≤ 256 }
    ensures text { line.new ≡ bar_end closed ++ line.old }
    ensures len { length line.new ≤ length line.old + 5 }
{
    if closed {
        line.put(b"z\"/>\n")
    } else {
        line.put(b"\"/>\n")
    }
}

fn put_bar_head(line: &mut Line, class: Class)
    requires { length line.old + 20 ≤ 256 }
    ensures { line.new ≡ bar_head class ++ line.old }
{
    match class {
        Class::Write => line.put(b"<path class=\"w\" d=\"M"),
        Class::Read => line.put(b"<path class=\"r\" d=\"M"),
        Class::Refused => line.put(b"<path class=\"f\" d=\"M"),
        Class::Broken => line.put(b"<path class=\"x\" d=\"M"),
    }
}
