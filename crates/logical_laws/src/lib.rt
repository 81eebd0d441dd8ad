//! Laws of logical files over their base files: what they store are records of these, what a read finds stands in them.
#![tactic(auto)]

pub mod laws;

pub use logical_model;
