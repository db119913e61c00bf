//! What the two sides of a cell do, over either cell.
ghost use Rattle.std.specs.Prelude.{◌≡◌, ◌+◌, ◌<◌, ◌≤◌, ◌^◌, ℕ, true, false, IfOk};
ghost use Rattle.c_registers.specs.Numbers.{numbered};
ghost use Rattle.c_registers.specs.declared.numbered.Numbered.{Numbered};

use crate::numbered::Numbered;
use std::alloc::{AllocError, Global};

/// A reading side.
pub trait Reading<W: Copy>: Sized + Drop {
    // The side before and after a read that answered.
    ghost has_read: { Self → Self → Numbered W → Type 0 };

    /// Gives one whole record with its number.
    fn read(&mut self) -> Numbered<W>
        ensures { has_read self.old self.new result };

    /// Gives the number of the record that a read would give, without the record. It counts as a read.
    fn look(&mut self) -> u64
        ensures { (w : W) × has_read self.old self.new (numbered result w) };
}

/// A writing side.
pub trait Writing<W: Copy>: Sized + Drop {
    // The number of the last record.
    ghost last: { Self → ℕ };

    // The side before and after a write of the record.
    ghost has_written: { Self → Self → W → Type 0 };

    /// Shows the record to the reader, under the next number. `false` where the numbers are used up.
    fn write(&mut self, words: &W) -> bool
        ensures written { result ≡ true → has_written self.old self.new words.now }
        ensures refused { result ≡ false → self.new ≡ self.old }
        ensures left { result ≡ true → last self.old + 1 < 2 ^ 64 }
        ensures at_limit { result ≡ false → 2 ^ 64 ≤ last self.old + 1 };
}

/// A writing side whose cell's reading side is a `G`.
pub trait Opens<W: Copy, G: Reading<W>>: Writing<W> {
    // The two sides of a new cell that opened with the record.
    ghost is_made: { Self → G → W → Type 0 };

    /// A cell with the opening numbered 0, as its two sides.
    fn open(alloc: Global, words: &W) -> Result<(Self, G), AllocError>
        ensures { IfOk result (λ r. is_made r.0 r.1 words.now) };
}
