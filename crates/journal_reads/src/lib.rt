//! Entries of a journal that were read from the disk, and what is found among them. Begin with `stretch.rt`.
#![tactic(auto)]

pub mod stretch;

pub use stretch::Stretch;
