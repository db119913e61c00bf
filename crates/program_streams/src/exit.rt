ghost use Rattle.std.specs.Prelude.{◌≡◌};
ghost use Rattle.program_streams.specs.Exits.{status_of};

/// How a run of a program ends.
#[derive(Clone, Copy)]
pub enum Exit {
    /// What was asked for was done, and what was asked about is so.
    Sound,
    /// It isn't so: an order is unlawful, none is lawful, an origin is broken, or a wrong record was found.
    Unsound,
    /// The words are no command.
    NoCommand,
    /// The document, its history or its schedule is refused.
    Refused,
    NoMemory,
    /// A stream or the clock failed.
    Stream,
    /// A thread can't start.
    NoThread,
    /// There is no verdict: more configurations are held than the budget.
    Undecided,
    /// What was asked about is so, but little shows it.
    Little,
}

impl Exit {
    /// The status of a program that ends so. No other end has it.
    pub fn status(self) -> u8
        ensures is { result ≡ status_of self }
        ensures alone { (other : Exit) → status_of other ≡ result → other ≡ self }
    {
        match self {
            Exit::Sound => 0,
            Exit::Unsound => 1,
            Exit::NoCommand => 2,
            Exit::Refused => 3,
            Exit::NoMemory => 4,
            Exit::Stream => 5,
            Exit::NoThread => 6,
            Exit::Undecided => 7,
            Exit::Little => 8,
        }
    }
}
