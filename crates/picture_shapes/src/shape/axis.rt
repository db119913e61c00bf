//! The moments and the terms.

ghost use Rattle.std.specs.Prelude.{◌≡◌, ◌+◌, ◌≤◌, ◌++◌, length};
ghost use Rattle.picture_shapes.specs.Shapes.{term_name, term_text, term_words, tick_text, tick_words};

use print_report::Line;

#[tactic(auto, unfolding(crate::specs::Shapes::tick_text), using(std::proofs::Common::append_assoc))]
pub fn put_tick(line: &mut Line, x: u64, high: u64, moment: u64)
    requires { length line.old ≡ 0 }
    ensures { line.new ≡ tick_text x high moment ++ line.old }
{
    put_tick_words(line, x, moment);
    line.put_number(high);
    line.put(b" 68V");
    line.put_number(x);
    line.put(b"<path class=\"t\" d=\"M");
}

#[tactic(auto, unfolding(crate::specs::Shapes::tick_words), using(std::proofs::Common::append_assoc))]
fn put_tick_words(line: &mut Line, x: u64, moment: u64)
    requires { length line.old ≡ 0 }
    ensures text { line.new ≡ tick_words x moment ++ line.old }
    ensures len { length line.new ≤ length line.old + 90 }
{
    line.put(b"</text>\n");
    line.put_number(moment);
    line.put(b"\" y=\"62\">");
    line.put_number(x);
    line.put(b"\"/><text class=\"a\" x=\"");
}

#[tactic(auto, unfolding(crate::specs::Shapes::term_text), using(std::proofs::Common::append_assoc))]
pub fn put_term(line: &mut Line, x: u64, high: u64, number: usize, limit: u64)
    requires { length line.old ≡ 0 }
    ensures { line.new ≡ term_text x high number limit ++ line.old }
{
    put_term_words(line, x, number, limit);
    line.put_number(high);
    line.put(b" 52V");
    line.put_number(x);
    line.put(b"<path class=\"s\" d=\"M");
}

#[tactic(auto, unfolding(crate::specs::Shapes::term_words), using(std::proofs::Common::append_assoc))]
fn put_term_words(line: &mut Line, x: u64, number: usize, limit: u64)
    requires { length line.old ≡ 0 }
    ensures text { line.new ≡ term_words x number limit ++ line.old }
    ensures len { length line.new ≤ length line.old + 130 }
{
    put_term_name(line, number, limit);
    line.put(b"\">");
    line.put_number(36 + 12 * (number as u64 % 2));
    line.put(b"\" y=\"");
    line.put_number(x);
    line.put(b"\"/><text x=\"");
}

#[tactic(auto, unfolding(crate::specs::Shapes::term_name), using(std::proofs::Common::append_assoc))]
fn put_term_name(line: &mut Line, number: usize, limit: u64)
    requires { length line.old ≡ 0 }
    ensures text { line.new ≡ term_name number limit ++ line.old }
    ensures len { length line.new ≤ length line.old + 70 }
{
    line.put(b"</text>\n");
    line.put_number(limit);
    line.put(b", limit ");
    line.put_number(number as u64);
    line.put(b"term ");
}
