ghost use Rattle.std.specs.Prelude.{◌≡◌, ◌+◌, ◌≤◌, ◌++◌, ℕ, List, [], drop, length};
ghost use Rattle.std.specs.Fmt.{decimal};

use itoa::write_digits;
use std::marker::Model;

/// The text of one line, written from its end to its beginning. Contracts see it as its bytes.
#[derive(Drop)]
pub struct Line {
    bytes: [u8; 256],
    start: usize,
}

impl Model for Line {
    ghost Value = { List ℕ };

    ghost view = { λ line. drop line.start line.bytes };

    ghost invariant = { λ line. line.start ≤ 256 };
}

impl Line {
    pub fn new() -> Self
        ensures { result ≡ [] }
    {
        Line {
            bytes: [0; 256],
            start: 256,
        }
    }

    pub fn clear(&mut self)
        ensures { self.new ≡ [] }
    {
        self.start = 256;
    }

    pub fn as_bytes(&self) -> &[u8]
        ensures { result.now ≡ self.now }
    {
        &self.bytes[self.start..]
    }

    /// Puts a piece before what was written.
    #[inline]
    pub fn put(&mut self, piece: &[u8])
        requires { length self.old + length piece.now ≤ 256 }
        ensures text { self.new ≡ piece.now ++ self.old }
        ensures len { length self.new ≡ length self.old + length piece.now }
    {
        let start = self.start - piece.len();
        self.bytes[start..self.start].copy_from_slice(piece);
        self.start = start;
    }

    /// Puts a number before what was written.
    #[inline]
    pub fn put_number(&mut self, number: u64)
        requires { length self.old + 20 ≤ 256 }
        ensures text { self.new ≡ decimal number ++ self.old }
        ensures len { length self.new ≤ length self.old + 20 }
    {
        self.start = write_digits(number, &mut self.bytes, self.start);
    }
}
