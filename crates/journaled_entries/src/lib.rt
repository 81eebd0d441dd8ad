//! What a library deposits in its journal, beyond that it can be replayed. Begin with `specs/Deposited.antt`.
#![tactic(auto)]

pub mod laws;
mod placed;

pub use placed::{is_of_record, is_placed};
