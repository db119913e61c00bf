//! Reads a log a line and prints the sweep's verdict on each. The tests compare these with what all orders say.
#![tactic(auto)]

mod log;

use crate::log::{Judged, judge};
use object_sweep::Verdict;
use std::io;

fn main(rt: HostRuntime) -> io::Result<()> {
    for line in rt.lines(rt.alloc()) {
        match judge(rt.alloc(), line?.as_str()) {
            Judged::As(Verdict::Lawful) => println!(rt; "lawful")?,
            Judged::As(Verdict::Unlawful { place }) => println!(rt; "unlawful {place}")?,
            Judged::As(Verdict::TooMany { place }) => println!(rt; "too many {place}")?,
            Judged::Backwards { place } => println!(rt; "backwards {place}")?,
            Judged::NoMemory => println!(rt; "no memory")?,
            Judged::NoLog => println!(rt; "no log")?,
        }
    }
    Ok(())
}
