//! The words of the program that has the command `watch` alone.
ghost use Rattle.std.specs.Prelude.{◌≡◌, map};
ghost use Rattle.fsr_watch_answers.specs.Words.{budget_in, budget_named};

use program_runs::{Show, budget_of};
use std::convert::AsStr;

/// How many configurations may be held; nothing where the words ask for anything else. The first word is the program's
/// name.
pub fn budget_in<S: AsStr>(words: &[S]) -> Option<usize>
    ensures { result ≡ budget_in (map S.text words.now) }
{
    match words {
        [_] => Some(Show::plain().budget),
        [_, word, number] => budget_named(word.as_str(), number.as_str()),
        _ => None,
    }
}

fn budget_named(word: &str, number: &str) -> Option<usize>
    ensures { result ≡ budget_named word.now number.now }
{
    match word {
        "--budget" => budget_of(number),
        _ => None,
    }
}
