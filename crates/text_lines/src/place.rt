//! The lines of operations.
ghost use Rattle.std.specs.Prelude.{◌≡◌, ◌<◌, ◌+◌, ◌^◌, IfOk};
ghost use Rattle.text_lines.specs.Places.{line_at};

use std::alloc::AllocError;

/// The line of the operation at a place.
pub fn line_at(place: usize) -> usize
    requires { place + 2 < 2 ^ 64 }
    ensures { result ≡ line_at place }
{
    place + 2
}

/// The same of any place. No memory holds a log that it is too large for.
pub fn line_of(place: usize) -> Result<usize, AllocError>
    ensures { IfOk result (λ line. line ≡ line_at place) }
{
    match place.checked_add(2) {
        Some(line) => Ok(line),
        None => Err(AllocError),
    }
}
