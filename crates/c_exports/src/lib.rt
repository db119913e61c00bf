//! The registers and boards for C and C++: a static library whose exports make a cell or a board,
//! write it, read it and end it.
//!
//! Each export is one call of `c_registers` or `c_boards` at a handle of `c_handles`, and its contract is that call's.
#![tactic(auto)]

mod exports;
