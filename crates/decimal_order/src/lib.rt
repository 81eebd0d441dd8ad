//! The order of decimal numbers by value, and the powers of ten.
#![tactic(auto)]

pub mod laws;
pub mod order;
pub mod powers;

pub use field_types;
