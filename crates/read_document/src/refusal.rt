ghost use Rattle.std.specs.Prelude.{◌≡◌};
ghost use Rattle.read_document.specs.declared.refusal.DocError.TheVariants.{NoMemory};

use crate::Key;
use std::alloc::AllocError;
use std::fmt;

/// Why a document is refused. The refusals are tested in this order, each over the whole document before the
/// next one, but want of memory may come at any point. Of several keys with one fault the first in the order
/// of the kind's keys is named.
#[derive(Clone, Copy)]
pub enum DocError {
    Long,
    /// The bytes are not one JSON text, or it nests deeper than 127.
    NotJson,
    /// The top is no object, or has no text `kind`, or the text is no kind of the command.
    Kind,
    Missing(Key),
    Shape(Key),
    Range(Key),
    Law(Key),
    NoMemory,
}

impl fmt::Display for DocError {
    fn fmt<W: fmt::Write>(&self, f: &mut fmt::Formatter<W>) -> fmt::Result {
        match self {
            DocError::Long => f.write_str("longer than 1048576 bytes"),
            DocError::NotJson => f.write_str("not JSON"),
            DocError::Kind => f.write_str("kind"),
            DocError::Missing(key) => write!(f, "missing {key}"),
            DocError::Shape(key) => write!(f, "shape of {key}"),
            DocError::Range(key) => write!(f, "range of {key}"),
            DocError::Law(key) => write!(f, "law of {key}"),
            DocError::NoMemory => f.write_str("out of memory"),
        }
    }
}

impl From<AllocError> for DocError {
    ghost from_gives = { λ _ e. e ≡ NoMemory };

    fn from(_e: AllocError) -> DocError {
        DocError::NoMemory
    }
}
