//! The lines of a text.
ghost use Rattle.std.specs.Prelude.{◌≡◌, ◌==◌, [], MatchOption};
ghost use Rattle.std.specs.List.{position, position_or_len};
ghost use Rattle.text_lines.specs.Splits.{IsSplit};

/// The first line of a text, without the line feed that ends it, and the text behind it; nothing of an empty text.
pub fn split_line(bytes: &[u8]) -> Option<(&[u8], &[u8])>
    ensures { MatchOption result (bytes.now ≡ []) (λ split. IsSplit bytes.now split.0.now split.1.now) }
{
    if bytes.is_empty() {
        return None;
    }
    let end = line_end(bytes);
    if end < bytes.len() {
        Some((&bytes[..end], &bytes[end + 1..]))
    } else {
        Some((bytes, &bytes[bytes.len()..]))
    }
}

/// The place of the first line feed, or the length where there is none.
fn line_end(bytes: &[u8]) -> usize
    ensures { result ≡ position_or_len (λ byte. byte == 10) bytes.now }
{
    match first_feed(bytes) {
        Some(end) => end,
        None => bytes.len(),
    }
}

fn first_feed(bytes: &[u8]) -> Option<usize>
    ensures { result ≡ position (λ byte. byte == 10) bytes.now }
{
    bytes.iter().position(|byte| *byte == b'\n')
}
