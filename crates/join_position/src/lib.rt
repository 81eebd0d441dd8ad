//! Where an open of a join file stands among its rows, with room for what it keeps of a row. Begin with `position.rt`.
#![tactic(auto)]

mod finding;
mod given;
pub mod laws;
mod matches;
pub mod position;

pub use join_rows;
pub use open_position;
