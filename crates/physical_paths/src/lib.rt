//! The access paths of physical files.
#![tactic(auto)]

pub mod laws;
