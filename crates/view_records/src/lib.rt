//! Records through a format of a logical file: the values that it shows of a record, and the record of the base file that
//! values make which are given through it.
#![tactic(auto)]

pub mod given;
pub mod laws;
pub mod shown;

pub use logical_paths;
