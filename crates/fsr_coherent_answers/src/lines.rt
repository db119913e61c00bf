//! The lines of a log, by their codes.
ghost use Rattle.std.specs.Prelude.{◌≡◌, [], map, slice_get, unwrap_or, IfOk};
ghost use Rattle.print_reasons.specs.Text.{body_of};

use std::alloc::{AllocError, Global};
use text_lines::split_line;

/// The lines behind the header.
pub(crate) fn body_lines<'a>(alloc: Global, codes: &'a [u8]) -> Result<Vec<&'a [u8]>, AllocError>
    ensures { IfOk result (λ lines. map (λ line. line.now) lines.items ≡ body_of codes.now) }
{
    let mut lines = Vec::new(alloc);
    let mut rest = match split_line(codes) {
        Some((_, body)) => body,
        None => codes,
    };
    'lines: while let Some((line, behind)) = split_line(rest) {
        lines.push(line)?;
        rest = behind;
    }
    Ok(lines)
}

/// The line of the operation at a place.
pub(crate) fn line_in<'a>(lines: &[&'a [u8]], place: usize) -> &'a [u8]
    ensures { result.now ≡ unwrap_or (slice_get (map (λ line. line.now) lines.now) place) [] }
{
    match lines.get(place) {
        Some(line) => line,
        None => &[],
    }
}
