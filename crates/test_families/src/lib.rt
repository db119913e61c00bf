//! The rows of boards over a family, of their tasks, lanes and gates, run by an outside caller over their public calls.
#![tactic(auto)]

#[cfg(test)]
mod gates;
#[cfg(test)]
mod lanes;
#[cfg(test)]
mod meeting;
#[cfg(test)]
mod orders;
#[cfg(test)]
mod origins;
#[cfg(test)]
mod runs;
#[cfg(test)]
mod teams;
