//! The library that a journal leaves, built in memory. Begin with `library.rt`.
#![tactic(auto)]

mod copies;
mod filling;
pub mod library;
mod placing;

pub use library::restarted_contents;
pub use library_parts;
