//! Worked rows and logs of objects, and a lock, which is no register.
#![tactic(auto)]

mod lock;
#[cfg(test)]
mod logs;
#[cfg(test)]
mod sources;
#[cfg(test)]
mod steps;
#[cfg(test)]
mod watch;
#[cfg(test)]
mod windows;

pub use lock::{Lock, Turn};
