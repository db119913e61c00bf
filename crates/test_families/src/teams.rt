//! Boards in one thread, with the passes of all processes in one hand.
use history_core::Band;

pub mod lost;
pub mod outside;
pub mod rows;

const OPENING: Band = Band {
    lo: 0,
    now: 0,
    hi: 0,
};

const A: Band = Band {
    lo: 1,
    now: 1,
    hi: 1,
};

const B: Band = Band {
    lo: 2,
    now: 2,
    hi: 2,
};

const C: Band = Band {
    lo: 3,
    now: 3,
    hi: 3,
};

const UNLAWFUL: Band = Band {
    lo: 3,
    now: 2,
    hi: 1,
};
