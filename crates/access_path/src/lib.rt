//! A keyed access path that is kept: the entries of the records that its formats select, in order. Begin with
//! `specs/KeptEntries.antt`.
#![tactic(auto)]

mod clash;
pub mod entrant;
pub mod laws;
pub mod path;
pub mod paths;
pub mod prepared;
mod rebuilding;

pub use key_order;
