//! One document and one text of each kind that no run of `fsr` shows. `tests/programs/refusals.sh`
//! tries each refusal at its bounds.

mod reading;
mod telling;

use history_core::Band;

const ZERO: Band = Band {
    lo: 0,
    now: 0,
    hi: 0,
};

const A: Band = Band {
    lo: 1,
    now: 1,
    hi: 1,
};
