//! Two sides that run at once, each in a thread of its own.
use crossbeam_utils::CachePadded;
use std::rt::Clock;
use std::sync::atomic::AtomicU64;
use std::thread::{Threads, join_mut};

/// What the sides tell each other: each its count of calls, and that the run is over.
#[derive(Drop)]
pub struct Beats {
    pub write: CachePadded<AtomicU64>,
    pub read: CachePadded<AtomicU64>,
    pub over: CachePadded<AtomicU64>,
}

impl Beats {
    pub fn new() -> Beats {
        Beats {
            write: CachePadded::new(AtomicU64::new(0)),
            read: CachePadded::new(AtomicU64::new(0)),
            over: CachePadded::new(AtomicU64::new(0)),
        }
    }
}

/// One side of a run.
pub trait Side {
    ghost ready: { Self → Type 0 };

    /// Makes the side's calls.
    fn run<R: Clock>(&mut self, rt: &R, beats: &Beats)
        requires { ready self.old };
}

pub fn at_once<R: Clock + Threads + Sync, A: Side + Send, B: Side + Send>(
    rt: &R,
    beats: &Beats,
    writer: &mut A,
    reader: &mut B,
)
    requires { A.ready writer.old × B.ready reader.old }
{
    join_mut(
        rt,
        &mut ||
            requires { A.ready writer.now }
        { writer.run(rt, beats) },
        &mut ||
            requires { B.ready reader.now }
        { reader.run(rt, beats) },
    );
}
