//! Members: lists of slots in memory, and the members of a library by their numbers.
#![tactic(auto)]

pub mod laws;
pub mod member;
pub mod members;
pub mod slot;
