//! What a page shows of a four-slot cell that is stepped: one export, which makes a schedule's steps and tells the
//! state that they lead to. It takes no memory, so the toolchain builds it for WebAssembly too.
#![tactic(auto)]

mod export;
mod in_play;
mod shown;

pub use export::nidzaru_cell_after;
pub use shown::Shown;
