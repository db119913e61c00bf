//! Whether threads can start: where none can, what was to run at once would run in turn, and show nothing.
use std::thread::{Threads, spawn};

/// Starts so many threads, then joins them, and says whether each could start. What it tells is of that moment.
pub fn can_start(rt: &impl Threads, count: usize) -> bool {
    if count == 0 {
        return true;
    }
    match spawn(rt, || ()) {
        Ok(thread) => {
            let others = can_start(rt, count - 1);
            thread.join(rt);
            others
        }
        Err(_) => false,
    }
}
