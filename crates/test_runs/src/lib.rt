//! What no run of the built `fsr` shows: its run over streams that fail, its races under gates of every kind, and the
//! check of the orders of played boards.
#![tactic(auto)]

#[cfg(test)]
mod boards;
#[cfg(test)]
mod fakes;
#[cfg(test)]
mod races;
#[cfg(test)]
mod runs;
