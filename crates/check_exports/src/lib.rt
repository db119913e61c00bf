//! The programs' answers for C: a static library whose exports check, search, play and draw a document in memory.
//!
//! Each export is one call of `memory_answers`, and its contract is that call's.
#![tactic(auto)]

mod exports;
