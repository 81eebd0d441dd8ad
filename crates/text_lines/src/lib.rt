//! The lines of a text, the blanks, names and numbers in a line, and single characters.
#![tactic(auto)]

pub mod characters;
pub mod decimals;
pub mod lines;

pub use field_types;
