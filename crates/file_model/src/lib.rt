//! What a file shows: the order of keys, which records a file selects, the fields that a logical file makes of its
//! base, access paths, joins, and positions with what each read finds. The definitions are in `specs/`; the types
//! that they speak of are here. Nothing runs. Begin with `specs/KeyOrder.antt`.
#![tactic(auto)]

pub mod joins;
pub mod laws;
pub mod paths;
pub mod rules;
pub mod views;

pub use record_fmt;
