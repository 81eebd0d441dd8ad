//! The files that a journal leaves, found by their names. Begin with `files.rt`.
#![tactic(auto)]

mod describe;
mod files;

pub use describe::Describe;
pub use files::{File, Files};
