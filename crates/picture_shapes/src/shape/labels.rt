//! The words of an operation: its kind, its stamp, its line and its record.

ghost use Rattle.std.specs.Prelude.{◌≡◌, ◌+◌, ◌≤◌, ◌++◌, length};
ghost use Rattle.print_report.specs.Lines.{kind_text};
ghost use Rattle.picture_shapes.specs.Shapes.{is_of_one, item_words, kind_words, line_words, lined_words, source_text};
ghost use Rattle.picture_shapes.specs.Shapes.{source_words, stamp_words, told_words, words_head};

use history_core::{Band, Kind};
use matrix_core::Stamp;
use print_report::{Line, put_item, put_stamp};

#[tactic(auto, unfolding(crate::specs::Shapes::words_head), using(std::proofs::Common::append_assoc))]
pub fn put_words_head(line: &mut Line, x: u64, y: u64)
    requires { length line.old + 60 ≤ 256 }
    ensures { line.new ≡ words_head x y ++ line.old }
{
    line.put(b"\">");
    line.put_number(y);
    line.put(b"\" y=\"");
    line.put_number(x);
    line.put(b"<text x=\"");
}

#[tactic(auto, unfolding(crate::specs::Shapes::kind_words), using(std::proofs::Common::append_assoc))]
pub fn put_kind_words(
    text: &mut Line,
    x: u64,
    y: u64,
    kind: Kind,
    stamp: Option<Stamp>,
    line: Option<usize>,
)
    requires { length text.old ≡ 0 }
    ensures { text.new ≡ kind_words x y kind stamp line ++ text.old }
{
    text.put(b"</text>\n");
    put_line_words(text, line);
    put_stamp_words(text, stamp);
    put_kind(text, kind);
    put_words_head(text, x, y);
}

#[tactic(auto, using(std::proofs::Common::append_assoc))]
fn put_line_words(text: &mut Line, line: Option<usize>)
    requires { length text.old + 30 ≤ 256 }
    ensures text { text.new ≡ line_words line ++ text.old }
    ensures len { length text.new ≤ length text.old + 30 }
{
    if let Some(line) = line {
        text.put_number(line as u64);
        text.put(b" ");
    }
}

#[tactic(auto, using(std::proofs::Common::append_assoc))]
fn put_stamp_words(line: &mut Line, stamp: Option<Stamp>)
    requires { length line.old + 50 ≤ 256 }
    ensures text { line.new ≡ stamp_words stamp ++ line.old }
    ensures len { length line.new ≤ length line.old + 50 }
{
    if stamp.is_some() {
        put_stamp(line, stamp);
        line.put(b" ");
    }
}

fn put_kind(line: &mut Line, kind: Kind)
    requires { length line.old + 7 ≤ 256 }
    ensures text { line.new ≡ kind_text kind ++ line.old }
    ensures len { length line.new ≤ length line.old + 7 }
{
    match kind {
        Kind::Write => line.put(b"write"),
        Kind::Read => line.put(b"read"),
        Kind::Refused => line.put(b"refused"),
    }
}

/// The record of an operation that may have a line.
pub fn put_told_words(text: &mut Line, x: u64, y: u64, line: Option<usize>, item: Option<Band>)
    requires { length text.old ≡ 0 }
    ensures { text.new ≡ told_words x y line item ++ text.old }
{
    match (line, item) {
        (Some(line), Some(band)) => put_lined_words(text, x, y, line as u64, band),
        _ => put_item_words(text, x, y, item),
    }
}

/// A record that is told by the line of its write, but on that line itself.
fn put_lined_words(text: &mut Line, x: u64, y: u64, line: u64, band: Band)
    requires { length text.old ≡ 0 }
    ensures { text.new ≡ lined_words x y line band ++ text.old }
{
    if !is_of_one(band) {
        put_item_words(text, x, y, Some(band));
    } else if band.lo != line {
        put_source_words(text, x, y, band.lo);
    }
}

const fn is_of_one(band: Band) -> bool
    ensures { result ≡ is_of_one band }
{
    band.now == band.lo && band.hi == band.lo
}

#[tactic(auto, unfolding(crate::specs::Shapes::source_words), using(std::proofs::Common::append_assoc))]
fn put_source_words(text: &mut Line, x: u64, y: u64, source: u64)
    requires { length text.old ≡ 0 }
    ensures { text.new ≡ source_words x y source ++ text.old }
{
    text.put(b"</text>\n");
    put_source(text, source);
    put_words_head(text, x, y);
}

#[tactic(auto, using(std::proofs::Common::append_assoc))]
fn put_source(text: &mut Line, source: u64)
    requires { length text.old + 30 ≤ 256 }
    ensures text { text.new ≡ source_text source ++ text.old }
    ensures len { length text.new ≤ length text.old + 30 }
{
    if source == 0 {
        text.put(b"the opening");
    } else {
        text.put_number(source);
        text.put(b"of line ");
    }
}

#[tactic(auto, unfolding(crate::specs::Shapes::item_words), using(std::proofs::Common::append_assoc))]
fn put_item_words(line: &mut Line, x: u64, y: u64, item: Option<Band>)
    requires { length line.old ≡ 0 }
    ensures { line.new ≡ item_words x y item ++ line.old }
{
    line.put(b"</text>\n");
    put_item(line, item);
    put_words_head(line, x, y);
}
