//! The white space at the end of a text.
ghost use Rattle.std.specs.Prelude.{◌≡◌};
ghost use Rattle.program_streams.specs.Spaces.{ends_in_space, space_behind};

/// The greatest number of bytes of white space behind the last line of a log.
const MAX_SPACE: usize = 1_048_576;

/// Whether a text ends in more white space than may stand behind the last line of a log.
pub fn ends_in_space(bytes: &[u8]) -> bool
    ensures { result ≡ ends_in_space bytes.now }
{
    MAX_SPACE < space_behind(bytes)
}

/// How many bytes of white space a text ends in.
fn space_behind(bytes: &[u8]) -> usize
    ensures { result ≡ space_behind bytes.now }
{
    bytes.len() - bytes.trim_ascii_end().len()
}
