//! A packed text.
ghost use Rattle.std.specs.Prelude.{◌≡◌, ◌≢◌, ◌++◌, [], true, false, List, ℕ, IfOk, OnOk};
ghost use Rattle.text_lines.specs.Words.{IsNextLine, text_in, told};

use crate::pack::push_codes;
use crate::split_line;
use crate::word::push_told;
use std::alloc::{AllocError, Global};

/// A text by its codes. A byte that isn't ASCII has none: where one comes, each code is a byte from then on.
#[derive(Drop)]
pub struct PackedText {
    pub codes: Vec<u8>,
    /// Whether a code may stand for more than a byte.
    pub packed: bool,
}

impl PackedText {
    /// The empty text.
    pub fn new(alloc: Global) -> PackedText
        ensures { text_in result ≡ [] }
    {
        PackedText {
            codes: Vec::new(alloc),
            packed: true,
        }
    }

    /// The text of these bytes.
    pub fn of(alloc: Global, bytes: &[u8]) -> Result<PackedText, AllocError>
        ensures { IfOk result (λ text. text_in text ≡ bytes.now) }
    {
        let mut text = PackedText::new(alloc);
        text.push(alloc, bytes)?;
        Ok(text)
    }

    /// Adds bytes at the end.
    pub fn push(&mut self, alloc: Global, bytes: &[u8]) -> Result<(), AllocError>
        ensures { OnOk result (text_in self.new ≡ text_in self.old ++ bytes.now) }
    {
        if !self.packed {
            return self.push_plain(bytes);
        }
        let rest = push_codes(&mut self.codes, bytes)?;
        if rest.is_empty() {
            return Ok(());
        }
        self.unpack(alloc)?;
        self.push_plain(rest)
    }

    /// Adds bytes where each code is one.
    fn push_plain(&mut self, bytes: &[u8]) -> Result<(), AllocError>
        requires { self.old.packed ≡ false }
        ensures { OnOk result (text_in self.new ≡ text_in self.old ++ bytes.now) }
    {
        self.codes.extend_from_slice(bytes)
    }

    /// Keeps each byte as it is from now on.
    fn unpack(&mut self, alloc: Global) -> Result<(), AllocError>
        ensures same { OnOk result (text_in self.new ≡ text_in self.old) }
        ensures unpacked { OnOk result (self.new.packed ≡ false) }
    {
        let mut text = Vec::new(alloc);
        push_told(&mut text, self.packed, self.codes.as_slice())?;
        self.codes = text;
        self.packed = false;
        Ok(())
    }

    /// Puts the first line that these codes of the text stand for in the place of what `line` has, and gives the codes
    /// behind it. Of no codes it is an empty line.
    pub fn next_line<'a>(&self, line: &mut Vec<u8>, codes: &'a [u8]) -> Result<&'a [u8], AllocError>
        ensures { IfOk result (λ behind. codes.now ≢ [] →
            IsNextLine self.now.packed codes.now line.new.items behind.now) }
    {
        match split_line(codes) {
            Some((own, behind)) => {
                self.tell(line, own)?;
                Ok(behind)
            }
            None => {
                line.clear();
                Ok(codes)
            }
        }
    }

    /// Puts what these codes of the text stand for in the place of what `line` has.
    pub fn tell(&self, line: &mut Vec<u8>, codes: &[u8]) -> Result<(), AllocError>
        ensures { OnOk result (line.new.items ≡ told self.now.packed codes.now) }
    {
        line.clear();
        push_told(line, self.packed, codes)
    }
}
