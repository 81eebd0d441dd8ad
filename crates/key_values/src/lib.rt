//! The values of keys that stand in bytes.
#![tactic(auto)]

pub mod laws;
