//! That no log was read.
ghost use Rattle.std.specs.Prelude.{◌≡◌};

use kept_lines::TurnError;
use read_document::DocError;
use std::alloc::AllocError;

/// The bytes stand for no log, or memory ran out.
#[derive(Clone, Copy, Debug)]
pub struct Unread;

impl From<AllocError> for Unread {
    ghost from_gives = { λ _ _. Unit {0} };

    fn from(_e: AllocError) -> Unread {
        Unread
    }
}

impl From<DocError> for Unread {
    ghost from_gives = { λ _ _. Unit {0} };

    fn from(_e: DocError) -> Unread {
        Unread
    }
}

impl From<TurnError> for Unread {
    ghost from_gives = { λ _ _. Unit {0} };

    fn from(_e: TurnError) -> Unread {
        Unread
    }
}
