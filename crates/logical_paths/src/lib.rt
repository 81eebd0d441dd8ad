//! The access paths of a logical file, built, and laws that each can be kept.
#![tactic(auto)]

pub mod bases;
mod copies;
mod joins;
mod key_fields;
pub mod laws;
pub mod paths;
pub mod readings;

pub use dds_physical;
pub use view_rules;
