//! What an access path asks of its specification: which records its formats select, under which keys; whether two
//! specifications are one, and whether two records of a path have equal keys. Begin with `specs/Formats.antt`.
#![tactic(auto)]

pub mod entrant;
pub mod laws;
pub mod repeated;
pub mod same;
