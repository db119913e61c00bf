//! The words of the program that has the command `order` alone.
ghost use Rattle.std.specs.Prelude.{◌≡◌, map};
ghost use Rattle.fsr_order_input.specs.Words.{show_named, show_of, show_within};

use program_runs::{Show, budget_of};
use std::convert::AsStr;

/// What the words ask for; nothing where they ask for anything else. The first word is the program's name.
pub fn show_of<S: AsStr>(words: &[S]) -> Option<Show>
    ensures { result ≡ show_of (map S.text words.now) }
{
    match words {
        [_] => Some(Show::plain()),
        [_, word] => show_named(word.as_str()),
        [_, word, number] => show_within(word.as_str(), number.as_str()),
        _ => None,
    }
}

fn show_named(word: &str) -> Option<Show>
    ensures { result ≡ show_named word.now }
{
    let plain = Show::plain();
    match word {
        "--order" => Some(Show {
            order: true,
            ..plain
        }),
        "--small" => Some(Show {
            small: true,
            ..plain
        }),
        "--strict" => Some(Show {
            strict: true,
            ..plain
        }),
        _ => None,
    }
}

fn show_within(word: &str, number: &str) -> Option<Show>
    ensures { result ≡ show_within word.now number.now }
{
    match word {
        "--budget" => match budget_of(number) {
            Some(budget) => Some(Show {
                budget,
                ..Show::plain()
            }),
            None => None,
        },
        _ => None,
    }
}
