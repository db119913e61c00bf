//! Worked orders and logs, with what the check and the search say of them, and documents and printed
//! texts: what no run of `fsr` shows.
#![tactic(auto)]

#[cfg(test)]
mod coherences;
#[cfg(test)]
mod documents;
#[cfg(test)]
mod orders;
#[cfg(test)]
mod searches;
#[cfg(test)]
mod sinks;
