//! The line at the top of a picture whose history has no lawful order, or whose order isn't lawful.

ghost use Rattle.std.specs.Prelude.{◌≡◌, ◌+◌, ◌≤◌, ◌++◌, codes, decimal, length};
ghost use Rattle.picture_shapes.specs.Shapes.{name_text, unlawful_head, words_end};

use print_report::Line;

/// How an operation is named.
#[derive(Clone, Copy)]
pub enum Name {
    /// By its line in a log.
    OnLine(usize),
    /// By its place among the operations.
    AtPlace(usize),
}

#[tactic(auto, using(std::proofs::Common::append_assoc))]
pub fn put_name(line: &mut Line, name: Name)
    requires { length line.old + 30 ≤ 256 }
    ensures text { line.new ≡ name_text name ++ line.old }
    ensures len { length line.new ≤ length line.old + 30 }
{
    match name {
        Name::OnLine(number) => {
            line.put_number(number as u64);
            line.put(b"line ");
        }
        Name::AtPlace(place) => {
            line.put_number(place as u64);
            line.put(b"operation ");
        }
    }
}

#[tactic(auto, using(std::proofs::Common::append_assoc))]
pub fn put_named_words(line: &mut Line, before: &[u8], name: Name, after: &[u8])
    requires empty { length line.old ≡ 0 }
    requires short { length before.now + length after.now ≤ 100 }
    ensures { line.new ≡ unlawful_head ++ before.now ++ name_text name ++ after.now ++ words_end ++ line.old }
{
    line.put(b"</text>\n");
    line.put(after);
    put_name(line, name);
    line.put(before);
    line.put(b"<text class=\"z\" x=\"8\" y=\"24\">unlawful ");
}

#[tactic(auto, using(std::proofs::Common::append_assoc))]
pub fn put_long_named_words(
    line: &mut Line,
    before: &[u8],
    first: Name,
    between: &[u8],
    second: Name,
    after: &[u8],
)
    requires empty { length line.old ≡ 0 }
    requires short { length before.now + length between.now + length after.now ≤ 100 }
    ensures { line.new ≡ unlawful_head ++ before.now ++ name_text first ++ between.now ++ name_text second ++ after.now
        ++ words_end ++ line.old }
{
    line.put(b"</text>\n");
    line.put(after);
    put_name(line, second);
    line.put(between);
    put_name(line, first);
    line.put(before);
    line.put(b"<text class=\"z\" x=\"8\" y=\"24\">unlawful ");
}

#[tactic(auto, using(std::proofs::Common::append_assoc))]
pub fn put_words(line: &mut Line, before: &[u8], number: u64, after: &[u8])
    requires empty { length line.old ≡ 0 }
    requires short { length before.now + length after.now ≤ 100 }
    ensures { line.new ≡ unlawful_head ++ before.now ++ decimal number ++ after.now ++ codes "</text>\n" ++ line.old }
{
    line.put(b"</text>\n");
    line.put(after);
    line.put_number(number);
    line.put(before);
    line.put(b"<text class=\"z\" x=\"8\" y=\"24\">unlawful ");
}

#[tactic(auto, using(std::proofs::Common::append_assoc))]
pub fn put_long_words(
    line: &mut Line,
    before: &[u8],
    first: u64,
    between: &[u8],
    second: u64,
    after: &[u8],
)
    requires empty { length line.old ≡ 0 }
    requires short { length before.now + length between.now + length after.now ≤ 100 }
    ensures { line.new ≡ unlawful_head ++ before.now ++ decimal first ++ between.now ++ decimal second ++ after.now
        ++ codes "</text>\n" ++ line.old }
{
    line.put(b"</text>\n");
    line.put(after);
    line.put_number(second);
    line.put(between);
    line.put_number(first);
    line.put(before);
    line.put(b"<text class=\"z\" x=\"8\" y=\"24\">unlawful ");
}

/// The line up to what stands in it already.
#[tactic(auto, using(std::proofs::Common::append_assoc))]
pub fn put_first_words(line: &mut Line, before: &[u8])
    requires { length line.old + length before.now + 40 ≤ 256 }
    ensures { line.new ≡ unlawful_head ++ before.now ++ line.old }
{
    line.put(before);
    line.put(b"<text class=\"z\" x=\"8\" y=\"24\">unlawful ");
}

/// The end of the line.
#[tactic(auto, using(std::proofs::Common::append_assoc))]
pub fn put_last_words(line: &mut Line, after: &[u8])
    requires empty { length line.old ≡ 0 }
    requires short { length after.now ≤ 100 }
    ensures text { line.new ≡ after.now ++ words_end ++ line.old }
    ensures len { length line.new ≤ length after.now + 8 }
{
    line.put(b"</text>\n");
    line.put(after);
}
