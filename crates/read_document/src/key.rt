ghost use Rattle.std.specs.Prelude.{◌≡◌, Some};

use std::fmt;

/// A key of a document.
#[derive(Clone, Copy)]
pub enum Key {
    Opening,
    Noise,
    Limit,
    Ops,
    Order,
    Writes,
    Reads,
    Steps,
    Plans,
    Scripts,
    Terms,
    Who,
    Kind,
    Begin,
    End,
    Record,
    Key,
    Repeats,
    From,
    Swapped,
    Found,
}

impl Key {
    ghost use Rattle.read_document.specs.Keys.{name_of};

    /// The key as it stands in a document.
    pub fn name(self) -> &'static str
        ensures { result.now ≡ name_of self }
    {
        match self {
            Key::Opening => "opening",
            Key::Noise => "noise",
            Key::Limit => "limit",
            Key::Ops => "ops",
            Key::Order => "order",
            Key::Writes => "writes",
            Key::Reads => "reads",
            Key::Steps => "steps",
            Key::Plans => "plans",
            Key::Scripts => "scripts",
            Key::Terms => "terms",
            Key::Who => "who",
            Key::Kind => "kind",
            Key::Begin => "begin",
            Key::End => "end",
            Key::Record => "record",
            Key::Key => "key",
            Key::Repeats => "repeats",
            Key::From => "from",
            Key::Swapped => "swapped",
            Key::Found => "found",
        }
    }
}

impl fmt::Display for Key {
    ghost use Rattle.read_document.specs.Keys.{name_of};

    ghost output = { λ key. Some (name_of key) };

    fn fmt<W: fmt::Write>(&self, f: &mut fmt::Formatter<W>) -> fmt::Result {
        f.write_str(self.name())
    }
}
