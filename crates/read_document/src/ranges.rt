//! The range that documents of several kinds have.
ghost use Rattle.std.specs.Prelude.{◌≡◌};
ghost use Rattle.read_document.specs.Ranges.{count_in_range};

/// The greatest number of operations in a document.
pub const MAX_OPERATIONS: usize = 10_000;

/// Whether a document may have so many operations.
pub fn count_in_range(operations: usize) -> bool
    ensures { result ≡ count_in_range operations }
{
    operations <= MAX_OPERATIONS
}
