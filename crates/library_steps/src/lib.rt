//! What each request of a job does to the library: its state, its refusals in order, its effect, its reply, and the entries that it
//! deposits. Nothing runs here. Begin with `specs/State.antt`, then `specs/Step.antt`.
#![tactic(auto)]

pub mod limits;

pub use dds_physical;
pub use library_model;
pub use lock_table;
pub use logical_model;
pub use record_fmt;
