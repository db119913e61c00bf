//! Worked lines of logs whose records repeat.
#![tactic(auto)]

#[cfg(test)]
mod lines;
#[cfg(test)]
mod logs;
#[cfg(test)]
mod packed;
