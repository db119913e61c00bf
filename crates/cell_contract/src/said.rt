//! What the processes of a family say to each other by tags. No value of these types is made.

/// A tag that a process said, and the last time of which it knew then.
pub struct Said {
    pub tag: u64,
    pub time: u64,
}

/// What a process found: that another one, `who`, had said this tag or a greater one. The time is that of the step of
/// its own with which it found this.
pub struct Found {
    pub who: u64,
    pub tag: u64,
    pub time: u64,
}
