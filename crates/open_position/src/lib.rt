//! Where an open stands among the records of its file, with room for its key. Begin with `position.rt`.
#![tactic(auto)]

mod formats;
mod given;
pub mod position;
pub mod reads;
