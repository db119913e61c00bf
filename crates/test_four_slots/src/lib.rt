//! Worked traces of the four-slot register, stepped by hand and played.
#![tactic(auto)]

#[cfg(test)]
mod traces;
