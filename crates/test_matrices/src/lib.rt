//! Worked rows of matrices and boards, stepped by hand and played, and their limits.
#![tactic(auto)]

#[cfg(test)]
mod rows;
