//! What a journal's entries leave, read one after another, or the first that can't follow. Begin with `replay.rt`.
#![tactic(auto)]

mod images;
mod judge;
pub mod laws;
mod moves;
mod replay;

pub use replay::Replay;
