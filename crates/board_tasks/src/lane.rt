//! What a task runs: a script of wishes with one pass, and the log of what was answered.
ghost use Rattle.std.specs.Prelude.{◌≡◌};

use board_live::{Pass, Posted, RecordLaw};
use cell_contract::Family;
use history_core::Wish;
use matrix_core::Stamp;

mod calls;

pub(crate) use calls::run_lane;

/// What a call answered.
#[derive(Clone, Copy, Debug, PartialEq, Eq)]
pub enum Reply<V> {
    /// The write has this stamp.
    Written(Stamp),
    /// The read saw this record.
    Seen(Posted<V>),
    /// The tags have ended; the refused write saw this record.
    Ended(Posted<V>),
}

impl<V: Copy> Reply<V> {
    ghost use Rattle.board_tasks.specs.Logs.{stamp_of};

    /// The stamp of the record that the call handed on.
    pub fn stamp(&self) -> Stamp
        ensures { result ≡ stamp_of self.now }
    {
        match self {
            Reply::Written(stamp) => *stamp,
            Reply::Seen(posted) | Reply::Ended(posted) => posted.stamp,
        }
    }
}

/// A call and what it answered.
#[derive(Clone, Copy, Debug, PartialEq, Eq)]
pub struct Entry<V> {
    pub wish: Wish<V>,
    pub reply: Reply<V>,
}

/// A pass with a script of wishes and the log of the calls that were made for it.
#[derive(Drop)]
pub struct Lane<V: RecordLaw, F: Family<Posted<V>>> {
    pass: Pass<V, F>,
    script: Vec<Wish<V>>,
    log: Vec<Entry<V>>,
}
