//! Keys in bytes, which stand in the order of the keys. Begin with `specs/KeyBytes.antt`.
#![tactic(auto)]

mod bytes;
pub mod comparing;
pub mod encoding;
pub mod given;
pub mod laws;
mod positions;
pub mod widths;

pub use file_model;
pub use key_pages;
