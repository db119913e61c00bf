//! Pictures of histories, with an order of them or with the reason why none is lawful, as SVG text.
#![tactic(auto)]

mod breaking;
mod finding;
mod frame;
mod lanes;
mod marks;
mod picture;
mod reasons;
mod scene;

pub use lanes::board_lanes;
pub use picture::picture_text;
pub use scene::{Finding, Scene};
