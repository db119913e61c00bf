//! What the command `order` is asked for.
ghost use Rattle.std.specs.Prelude.{◌≡◌};
ghost use Rattle.program_runs.specs.Shows.{budget_of, in_range};

/// What the command `order` prints of a log in lines besides the verdict, and how it judges it.
#[derive(Clone, Copy, PartialEq, Eq)]
pub struct Show {
    /// The lines of the writes, in the order that was found.
    pub order: bool,
    /// In place of all else a small log that has no lawful order, if this one has none.
    pub small: bool,
    /// A status of its own for a lawful log that shows little.
    pub strict: bool,
    /// How many configurations may be held of a log whose records repeat.
    pub budget: usize,
}

/// The most configurations that may be asked for.
pub const MOST_BUDGET: usize = 1_000_000_000;

impl Show {
    ghost use Rattle.std.specs.Prelude.{◌≡◌};
    ghost use Rattle.program_runs.specs.Shows.{plain};

    /// What is asked for without words.
    pub fn plain() -> Show
        ensures { result ≡ plain }
    {
        Show {
            order: false,
            small: false,
            strict: false,
            budget: 10_000,
        }
    }
}

/// The budget that a word names, which is a number from 1 to the most.
pub fn budget_of(word: &str) -> Option<usize>
    ensures { result ≡ budget_of word.now }
{
    match word.parse::<usize>() {
        Ok(number) => in_range(number),
        Err(_) => None,
    }
}

fn in_range(number: usize) -> Option<usize>
    ensures { result ≡ in_range number }
{
    if 1 <= number && number <= MOST_BUDGET {
        Some(number)
    } else {
        None
    }
}
