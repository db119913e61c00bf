//! The rows of the running cells, run by an outside caller over their public calls.
#![tactic(auto)]

#[cfg(test)]
mod counts;
#[cfg(test)]
mod in_place;
#[cfg(test)]
mod torn;
