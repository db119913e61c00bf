//! What the calls answer. The header has the same numbers.

pub const DONE: u32 = 0;

pub const NO_MEMORY: u32 = 1;

pub const IN_USE: u32 = 2;

pub const ENDED: u32 = 3;

pub const REFUSED: u32 = 4;

pub const OTHER_SIDE: u32 = 5;

pub const PROCESSES: u32 = 8;

pub const LIMIT: u32 = 9;

pub const OLDER: u32 = 10;

pub const CUT_OFF: u32 = 12;
