//! The lines of a text that goes on.
ghost use Rattle.std.specs.Prelude.{◌≡◌, ◌==◌, MatchOption, None};
ghost use Rattle.std.specs.List.{position};
ghost use Rattle.fsr_watch_answers.specs.Fronts.{IsFirstLine};

/// The first line that a line feed ends, and the text behind that; nothing where there is no line feed.
pub(crate) fn split_whole(bytes: &[u8]) -> Option<(&[u8], &[u8])>
    ensures { MatchOption result (position (λ byte. byte == 10) bytes.now ≡ None)
        (λ split. IsFirstLine bytes.now split.0.now split.1.now) }
{
    match first_feed(bytes) {
        Some(end) => Some((&bytes[..end], &bytes[end + 1..])),
        None => None,
    }
}

/// The place of the first line feed.
fn first_feed(bytes: &[u8]) -> Option<usize>
    ensures { result ≡ position (λ byte. byte == 10) bytes.now }
{
    bytes.iter().position(|byte| *byte == b'\n')
}
