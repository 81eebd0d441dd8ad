//! Laws of the test by which equal access paths are counted once.
#![tactic(auto)]

pub mod laws;
