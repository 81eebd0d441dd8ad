//! Physical files by their data description: the record format, the key, or the first fault of a source.
//! The meaning stands in `specs/`, the whole in `specs/Physical.antt`.
#![tactic(auto)]

mod attributes;
mod defaults;
pub mod dependents;
mod described;
mod draft;
mod file_keywords;
mod first;
mod keyword_names;
mod keyword_rules;
pub mod laws;
mod lines;
mod names;
pub mod physical_files;
mod references;
pub mod refs;
mod texts;

pub use dds_source;
pub use dependents::refers_to;
pub use physical_files::{PhysicalError, PhysicalSpec, physical};
pub use refs::Refs;
