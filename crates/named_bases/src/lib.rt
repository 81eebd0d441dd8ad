//! Laws of the files that a source names: those of a logical file are its base files, those of a physical file are what it refers to.
#![tactic(auto)]

pub mod laws;
