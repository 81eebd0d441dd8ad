//! Join files over their base files: that their rows can be read by their paths, and which values they show.
#![tactic(auto)]

pub mod laws;
pub mod shown;

pub use join_rows;
