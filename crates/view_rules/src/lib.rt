//! Logical fields over the records of a base file: which records rules select, what fields show of a record, and the
//! record that values make which are given through them. The meaning stands in `file_model`.
#![tactic(auto)]

pub mod laws;
mod operands;
mod placing;
mod refusals;
pub mod selection;
mod sources;
pub mod storing;
mod texts;
pub mod viewing;

pub use file_model;
